// The lines of a file one after the other.
ghost use Rattle.std.specs.Prelude.{◌≡◌, List, ℕ, ok_or};
ghost use Rattle.network.specs.declared.Refusal.TheVariants.{Layout};
ghost use Rattle.dimacs.specs.File.{closing};
ghost use Rattle.dimacs.specs.Reading.{down, opening, following, next};
ghost use Rattle.dimacs.specs.Result.{result_of, Read};
ghost use Rattle.dimacs.specs.Stage.{progress_of, reading_of, Held, Comes, GoesOn};

use crate::{Parsed, Tally};
use bounds::{LEAST_NODES, MOST_ARCS, MOST_BYTES, MOST_NODES};
use checks::sizes::outside;
use lines::{Line, meaning};
use network::Refusal;

// A line before the p line.
fn begin(place: u64, line: Line) -> Result<Option<Tally>, Refusal>
    ensures { (ts hs cs : List ℕ) → Held None ts hs cs → Comes (opening place line) result ts hs cs }
{
    match line {
        Line::Comment => Ok(None),
        Line::Problem(n, m) => {
            if outside(LEAST_NODES, MOST_NODES, n) {
                return Err(Refusal::Nodes);
            }
            if outside(1, MOST_ARCS as u64, m) {
                return Err(Refusal::Arcs);
            }
            Ok(Some(Tally {
                nodes: n,
                wanted: m as usize,
                found: 0,
                source: None,
                sink: None,
            }))
        }
        _ => Err(Refusal::Layout(place)),
    }
}

// The tally past a line behind the p line, if the line keeps the layout.
fn go_on(
    tally: Tally,
    line: Line,
    tails: &mut [u64],
    heads: &mut [u64],
    capacities: &mut [u64],
) -> Option<Tally>
    requires { Held (Some tally) tails.old heads.old capacities.old }
    ensures { (i : ℕ) → GoesOn i (following i line (progress_of tally tails.old heads.old capacities.old)) result tails.new heads.new capacities.new }
{
    match line {
        Line::Comment => Some(tally),
        Line::Problem(_, _) | Line::Broken => None,
        Line::Source(v) if tally.source.is_none() => Some(Tally {
            source: Some(v),
            ..tally
        }),
        Line::Sink(v) if tally.sink.is_none() => Some(Tally {
            sink: Some(v),
            ..tally
        }),
        Line::Arc(u, v, c) if tally.found < tally.wanted => {
            tails[tally.found] = u;
            heads[tally.found] = v;
            capacities[tally.found] = c;
            Some(Tally {
                found: tally.found + 1,
                ..tally
            })
        }
        // A second s or t, or an arc too many.
        Line::Source(_) | Line::Sink(_) | Line::Arc(_, _, _) => None,
    }
}

// The next line, whatever came before it.
fn next(
    tally: Option<Tally>,
    place: u64,
    line: Line,
    tails: &mut [u64],
    heads: &mut [u64],
    capacities: &mut [u64],
) -> Result<Option<Tally>, Refusal>
    requires { Held tally tails.old heads.old capacities.old }
    ensures { Comes (next place line (reading_of tally tails.old heads.old capacities.old)) result tails.new heads.new capacities.new }
{
    match tally {
        None => begin(place, line),
        Some(tally) => {
            let further = go_on(tally, line, tails, heads, capacities);
            Ok(Some(further.ok_or(Refusal::Layout(place))?))
        }
    }
}

// The end of the file, if nothing is missing.
fn finish(
    tally: Option<Tally>,
    tails: [u64; MOST_ARCS],
    heads: [u64; MOST_ARCS],
    capacities: [u64; MOST_ARCS],
) -> Option<Parsed>
    requires { Held tally tails heads capacities }
    ensures { ok_or result (Layout 0) ≡ result_of (closing (reading_of tally tails heads capacities)) }
{
    let tally = tally?;
    let source = tally.source?;
    let sink = tally.sink?;
    if tally.found != tally.wanted {
        return None;
    }
    Some(Parsed {
        nodes: tally.nodes,
        arcs: tally.found,
        source,
        sink,
        tails,
        heads,
        capacities,
    })
}

// What a file of these bytes comes to.
#[tactic(auto, using(crate::proofs::Whole::long_files))]
pub fn read(text: &[u8]) -> Result<Parsed, Refusal>
    ensures { Read text.now result }
{
    if MOST_BYTES < text.len() {
        return Err(Refusal::LongFile);
    }
    let mut tails = [0u64; MOST_ARCS];
    let mut heads = [0u64; MOST_ARCS];
    let mut capacities = [0u64; MOST_ARCS];
    let mut tally = None;
    let mut place: u64 = 1;
    for line in text.split_inclusive(|b| *b == b'\n') {
        let said = meaning(line.strip_suffix(b"\n").unwrap_or(line));
        tally = next(tally, place, said, &mut tails, &mut heads, &mut capacities)?;
        place += 1;
    }
    finish(tally, tails, heads, capacities).ok_or(Refusal::Layout(0))
}
