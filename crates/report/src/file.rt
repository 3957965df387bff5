// A file read, packed, judged and listed.
ghost use Rattle.std.specs.Prelude.{◌≡◌, ◌+◌, ◌≤◌, length};
ghost use Rattle.packed.specs.Packed.{net_in};
ghost use Rattle.report.specs.Listed.{Listed};
ghost use Rattle.report.specs.Shown.{shape_of, network_of_file, Packing, Filed};

use crate::solved::show;
use checks::items::check_items;
use dimacs::Parsed;
use network::Refusal;
use packed::{CAPACITIES, HEADS, MARKS, NET_NUMBERS, Net, SINKS, SOURCES, Shape, TAILS};
use rows::Rows;

// The network of a file that has been read, into one slice. A file marks no arc and limits no node.
fn pack(file: &Parsed, net: &mut [u64])
    requires { Packing file.now net.old }
    ensures { net_in (shape_of file.now) net.new ≡ network_of_file file.now }
{
    let m = file.arcs;
    net[TAILS..TAILS + m].copy_from_slice(&file.tails[..m]);
    net[HEADS..HEADS + m].copy_from_slice(&file.heads[..m]);
    net[CAPACITIES..CAPACITIES + m].copy_from_slice(&file.capacities[..m]);
    net[SOURCES] = file.source;
    net[SINKS] = file.sink;
    net[MARKS..MARKS + m].fill(0);
}

// The rows of an accepted network in a file of these bytes, or why the file or its network is turned down. The counts of
// a file's network are within their bounds, so only arcs and the commodity are left to check.
fn file_rows(text: &[u8], rows: &mut Rows) -> Result<(), Refusal>
    requires { rows.old.at + 23199 ≤ length rows.old.out.now }
    ensures same_table { rows.new.out.ghost_name ≡ rows.old.out.ghost_name }
    ensures filed { Filed text.now rows.old.out.now rows.old.at rows.new.out.now rows.new.at result }
{
    let file = dimacs::read(text)?;
    let shape = Shape {
        nodes: file.nodes,
        arcs: file.arcs,
        commodities: 1,
        limits: 0,
        resources: file.arcs,
    };
    let mut numbers = [0u64; NET_NUMBERS];
    pack(&file, &mut numbers);
    let net = Net {
        shape,
        numbers: &numbers,
    };
    check_items(&net)?;
    show(&net, rows);
    Ok(())
}

// The listing of a file of these bytes, from the first place on; returns how many bytes it has. The table holds every
// listing: 27 bytes for the header, 159 for total, bound and steps, 90 for each of 256 belts.
pub fn listing(text: &[u8], out: &mut [u8; 24576]) -> usize
    ensures { Listed text.now out.old result out.new }
{
    let mut rows = Rows { out, at: 0 };
    rows.put(b"row,tail,head,upper,lower\r\n");
    if let Err(why) = file_rows(text, &mut rows) {
        rows.put_refusal(why);
    }
    rows.at
}
