// The listing program: standard input to standard output. One byte more is read than a file may have, so that a long file is known as one.
// The program ends with status 0 whatever happens; ./list tells by the line on standard error that the listing is not whole.
#![tactic(auto)]

ghost use Rattle.std.specs.Prelude.{◌≡◌, ◌≤◌, length, take};
ghost use Rattle.std.specs.Io.KnownBytes.{Consumes};

use std::io::Read;

// Reads until the room is full, the input ends or a read fails; returns how many bytes stand in front.
fn read_full<R: Read>(from: &mut R, room: &mut [u8]) -> usize
    ensures within { result ≤ length room.new }
    ensures bytes { Consumes (R.remaining from.old) (R.remaining from.new) (take result room.new) }
{
    let mut done = 0;
    // Kept: the loop steps by what a read gave, which no range says.
    while done < room.len() {
        match from.read(&mut room[done..]) {
            Ok(0) | Err(_) => break,
            Ok(n) => done += n,
        }
    }
    done
}

fn main(rt: HostRuntime) {
    let mut text = [0; 65537];
    let n = read_full(&mut rt.stdin(), &mut text);
    let mut out = [0; 24576];
    let k = report::listing(&text[..n], &mut out);
    if rt.write_all(&out[..k]).is_err() {
        eprintln!(rt; "listing: the listing is not whole: standard output is full or closed").ok();
    }
}
