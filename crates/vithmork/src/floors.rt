// The call for a site's floors. Request C-14.
ghost use Rattle.site.specs.Site.{Sited};

use checks::numbers::host_number;
use decode::Floor;

// Solves the site's floors in the byte slices, each as vithmork_solve would: 0, and for each floor eight numbers in the table answers, what its own
// call would return and its answer; or a refusal's number * 1,000 and no byte changed.
#[unsafe(no_mangle)]
pub extern "C" fn vithmork_site(
    office: u64,
    floors: &[u8],
    belts: &[u8],
    pairs: &[u8],
    limits: &[u8],
    flow: &mut [u8],
    lengths: &mut [u8],
    answers: &mut [u8],
    counts: &mut [u8],
) -> u64
    ensures { Sited (record { office = office; floors = floors.now; belts = belts.now; pairs = pairs.now; limits = limits.now })
        (record { flow = flow.old; lengths = lengths.old; answer = answers.old; counts = counts.old })
        (record { flow = flow.new; lengths = lengths.new; answer = answers.new; counts = counts.new })
        result }
{
    let floor = Floor {
        belts,
        pairs,
        limits,
    };
    let v = site::solve(office, floors, &floor, flow, lengths, answers, counts);
    host_number(v)
}
