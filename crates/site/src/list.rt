// What is checked before any floor is looked at: how many are there, and has the table of answers room for each?
ghost use Rattle.std.specs.Prelude.{◌≡◌};
ghost use Rattle.network.specs.Verdict.{verdict};
ghost use Rattle.site.specs.Site.{list_conditions};

use bounds::{FLOOR_NUMBERS, MOST_NETWORKS};
use checks::sizes::outside;
use network::{Refusal, Verdict};

// 13, then 5.
pub fn check_list(floors: &[u8], answers: &[u8]) -> Verdict
    ensures { result ≡ verdict (list_conditions floors.now answers.now) }
{
    let k = numbers::items(floors, FLOOR_NUMBERS);
    if outside(1, MOST_NETWORKS as u64, k as u64) {
        return Err(Refusal::Networks);
    }
    if numbers::count(answers) < 8 * k {
        return Err(Refusal::ShortTable);
    }
    Ok(())
}
