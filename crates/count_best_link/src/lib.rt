// Which link of an originator is best once a message is counted. This link is the one that the message came by, and `key` its pair of neighbour
// address and interface.
#![tactic(auto)]

ghost use Rattle.std.specs.Prelude.{◌≡◌, ◌*◌, ◌≤◌, eqb, length};
ghost use Rattle.window.specs.Marks.{word_of};
ghost use Rattle.rules.specs.Settings.{Config, Follows, Bounded, link_cells};
ghost use Rattle.rules.specs.Table.{is_highest};
ghost use Rattle.count_best_link.specs.BestLink as B;
ghost use Rattle.count_best_link.specs.BestLink.{LeastNotBelow, moved, chosen};

use rules::Policy;
use table_record::{key_at, marks_at};
use window::{Marks, count, shift};

// How a message is counted: by which policy, how far current moves up (0 where the window stays, so that every link's marks are shifted and
// none is asked whether they move), and how far below it the message's number then lies.
#[derive(Clone, Copy)]
pub struct Step {
    pub policy: Policy,
    pub up: u64,
    pub below: u64,
}

// The least count of a link that does not stand below one with the count `high`: one more under newest wins, where the tie is 0, and as many under
// present link stays. So the tie is asked once a message, and not of each link.
fn least_not_below(p: Policy, high: u32) -> u64
    requires { Bounded p }
    ensures { (κ : Config) → Follows κ p → LeastNotBelow κ high result }
{
    high as u64 + 1 - p.tie
}

// Whether a link is this one, or has a lower count than `least`.
fn yields(this: u64, least: u64, key: u64, marks: Marks) -> bool
    ensures { result ≡ B.yields this least (key, word_of marks) }
{
    (key == this) | ((count(marks) as u64) < least)
}

// The first link that does not stand below this one once current has moved up, where this one has these marks; this one where all others do.
fn first_not_below(part: &[u64], n: usize, step: Step, key: u64, marks: Marks) -> u64
    requires { (n * link_cells ≤ length part.now) × Bounded step.policy }
    ensures { (κ : Config) → Follows κ step.policy → eqb result key ≡ is_highest κ key (word_of marks) (moved step n part.now) }
{
    let p = step.policy;
    let least = least_not_below(p, count(marks));
    let mut found = key;
    for i in 0..n {
        let other = key_at(part, i);
        let moved = shift(p.window, step.up, marks_at(part, i));
        if !yields(key, least, other, moved) {
            found = other;
            break;
        }
    }
    found
}

// Best once this link has these marks: this link where every other stands below it. Otherwise best stays, even with count 0, and also
// where it isn't the highest.
pub fn choose(part: &[u64], n: usize, step: Step, key: u64, marks: Marks, best: u64) -> u64
    requires { (n * link_cells ≤ length part.now) × Bounded step.policy }
    ensures { (κ : Config) → Follows κ step.policy → result ≡ chosen κ key (word_of marks) best (moved step n part.now) }
{
    let found = first_not_below(part, n, step, key, marks);
    if found == key { key } else { best }
}
