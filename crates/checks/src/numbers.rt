// The number of a verdict, for a host.
ghost use Rattle.std.specs.Prelude.{◌≡◌, ◌<◌, ◌^◌};
ghost use Rattle.network.specs.Refusal.{host_number};

use bounds::PLACE_NUMBERS;
use network::{Code, Verdict};

// What a host call returns for a verdict. That the number fits is known of every verdict of a call (verdict-fits, since a place is at most 256), and of any refusal
// with a place up to 65,536 (refusal-fits); an enum's place alone could be as large as a u64.
pub fn host_number(v: Verdict) -> u64
    requires { host_number v < 2 ^ 64 }
    ensures { result ≡ host_number v }
{
    match v {
        Ok(()) => 0,
        Err(why) => {
            let c = Code::from(why);
            c.number * PLACE_NUMBERS + c.place
        }
    }
}
