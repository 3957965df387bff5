// Where a floor's own parts of the slices are. Sizes are numbers, not items; a part begins where the parts before it ended and stops at its slice's
// end. A size is compared with what is left before anything is added, so that none is too large.
ghost use Rattle.std.specs.Prelude.{◌≡◌, min, ◌<◌};
ghost use Rattle.bounds.specs.Sites.{floor_numbers};
ghost use Rattle.numbers.specs.Numbers.{count, items};
ghost use Rattle.site.specs.Parts.{begins};
ghost use Rattle.site.specs.Turns.{span_of, parts_of};

use bounds::FLOOR_NUMBERS;
use decode::Floor;

// A part of a slice: its first byte and its size in bytes.
#[derive(Clone, Copy)]
pub struct Span {
    pub from: usize,
    pub size: usize,
}

// A floor's part of each slice that the floors share.
#[derive(Clone, Copy)]
pub struct Parts {
    pub belts: Span,
    pub pairs: Span,
    pub limits: Span,
    pub flow: Span,
    pub lengths: Span,
}

// As many numbers as are told, or as are left.
fn fit(told: u64, left: usize) -> usize
    ensures { result ≡ min told left }
{
    told.min(left as u64) as usize
}

// Where floor i's part begins, of a slice of so many numbers, member j of an item telling how many are its floor's own.
fn begins(floors: &[u8], j: usize, room: usize, i: usize) -> usize
    requires { (j < floor_numbers) × (i < items floor_numbers floors.now) }
    ensures { result ≡ begins floors.now j room i }
{
    let mut from = 0;
    for f in 0..i {
        from += fit(numbers::read(floors, FLOOR_NUMBERS * f + j), room - from);
    }
    from
}

// Floor i's part of the slice.
fn part_of(floors: &[u8], j: usize, i: usize, s: &[u8]) -> Span
    requires { (j < floor_numbers) × (i < items floor_numbers floors.now) }
    ensures { result ≡ span_of floors.now j (count s.now) i }
{
    let room = numbers::count(s);
    let from = begins(floors, j, room, i);
    let size = fit(numbers::read(floors, FLOOR_NUMBERS * i + j), room - from);
    Span {
        from: 8 * from,
        size: 8 * size,
    }
}

// Floor i's parts. Their sizes stand behind n and q in its item.
pub fn of_floor(floors: &[u8], i: usize, floor: &Floor<'_>, flow: &[u8], lengths: &[u8]) -> Parts
    requires { i < items floor_numbers floors.now }
    ensures { result ≡ parts_of floors.now i floor.now.belts.now floor.now.pairs.now floor.now.limits.now flow.now lengths.now }
{
    Parts {
        belts: part_of(floors, 2, i, floor.belts),
        pairs: part_of(floors, 3, i, floor.pairs),
        limits: part_of(floors, 4, i, floor.limits),
        flow: part_of(floors, 5, i, flow),
        lengths: part_of(floors, 6, i, lengths),
    }
}
