// What is asked of a burst before its packets: 14, unless its lists, its answer rows and its buffer fit each other.
#![tactic(auto)]

ghost use Rattle.std.specs.Prelude.{◌≡◌, eqb};
ghost use Rattle.lists.specs.Lists.{sum};
ghost use Rattle.rules.specs.Calls.{BurstArgs};
ghost use Rattle.rules.specs.Rules.{burst_fits};
ghost use Rattle.call_burst_checks.specs.Sizes.{Sizes};

use rules::limits::PACKETS_MOST;

const PACKETS: usize = PACKETS_MOST as usize;

// Whether the lengths add up to the buffer's. What is left of the buffer only falls, so that no sum can wrap.
fn adds_up(lengths: &[u64], octets: usize) -> bool
    ensures { result ≡ eqb (sum lengths.now) octets }
{
    let mut rest = octets as u64;
    for &length in lengths {
        if rest < length {
            return false;
        }
        rest -= length;
    }
    rest == 0
}

// Whether a burst fits: `octets`, `senders`, `interfaces` and `rows` are how many there are of each.
pub fn fits(octets: usize, lengths: &[u64], senders: usize, interfaces: usize, rows: usize) -> bool
    ensures { (a : BurstArgs) → Sizes a octets lengths.now senders interfaces rows → result ≡ burst_fits a }
{
    let n = lengths.len();
    let even = (senders == n) & ((interfaces == n) & ((n <= PACKETS) & (n <= rows)));
    if !even {
        return false;
    }
    adds_up(lengths, octets)
}
