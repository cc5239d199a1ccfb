// The links of one originator while a message is counted: shifted, marked on this link, and kept or dropped.
// This link is the one that the message came by, and `key` its pair of neighbour address and interface.
#![tactic(auto)]

ghost use Rattle.std.specs.Prelude.{◌≡◌, ◌++◌, ◌+◌, ◌*◌, ◌≤◌, ◌<◌, length};
ghost use Rattle.lists.specs.Lists.{keep};
ghost use Rattle.cells.specs.Find.{Sorted};
ghost use Rattle.window.specs.Marks.{word_of};
ghost use Rattle.rules.specs.Settings.{Bounded, window_most, link_most, link_cells};
ghost use Rattle.table_record.specs.Links.{links_from};
ghost use Rattle.count_best_link.specs.BestLink.{Links, moved};
ghost use Rattle.count_links.specs.Links as L;
ghost use Rattle.count_links.specs.Links.{Blank, SpotOf, Built, Arranged, Recounted};

use cells::find;
use count_best_link::{Step, choose};
use table_record::{LINK, key_at, marks_at, put_link};
use window::{Marks, has_mark, mark, no_marks, shift};

// Whether a link has a mark or is best.
fn stays(best: u64, key: u64, marks: Marks) -> bool
    ensures { result ≡ L.stays best (key, word_of marks) }
{
    has_mark(marks) | (key == best)
}

// Writes, from place m on, those of n links that keep their place once current has moved up; answers how many are written then.
fn keep_links(out: &mut [u64], m: usize, part: &[u64], n: usize, step: Step, best: u64) -> usize
    requires { (n * link_cells ≤ length part.now) × ((m + n) * link_cells ≤ length out.old) × Bounded step.policy }
    ensures { (result ≤ m + n) × ((rest goal : Links) → Built out.old m (keep (L.stays best) (moved step n part.now) ++ rest) goal → Built out.new result rest goal) }
{
    let p = step.policy;
    let mut k = m;
    for i in 0..n {
        let key = key_at(part, i);
        let marks = shift(p.window, step.up, marks_at(part, i));
        if stays(best, key, marks) {
            put_link(out, k, key, marks);
            k += 1;
        }
    }
    k
}

// Where this link stands or would come in: the first `low` links are below it, those from `high` on above. Not held, it has no marks.
#[derive(Clone, Copy)]
pub struct Spot {
    pub low: usize,
    pub high: usize,
    pub marks: Marks,
}

// Finds this link among n links.
pub fn locate(part: &[u64], n: usize, key: u64) -> Spot
    requires { Sorted link_cells n part.now }
    ensures { SpotOf (links_from n part.now) key result }
{
    match find(part, LINK, n, key).found {
        Ok(i) => Spot {
            low: i,
            high: i + 1,
            marks: marks_at(part, i),
        },
        Err(i) => Spot {
            low: i,
            high: i,
            marks: no_marks(),
        },
    }
}

// How many links counting leaves, the best one's key, and this link's marks.
#[derive(Clone, Copy)]
pub struct Left {
    pub links: usize,
    pub best: u64,
    pub marks: Marks,
}

// Writes the links in their order, this one with these marks between the first `low` and those from `high` on, without those that give up
// their place.
fn arrange(
    out: &mut [u64],
    part: &[u64],
    n: usize,
    spot: Spot,
    step: Step,
    key: u64,
    best: u64,
) -> Left
    requires link_cells_in_bounds { (n * link_cells ≤ length part.now) × (n ≤ link_most) × (spot.low ≤ spot.high) × (spot.high ≤ n) × Bounded step.policy }
    requires blank { Blank out.old }
    ensures { Arranged out.new result spot step.policy key best (moved step n part.now) }
{
    let marks = spot.marks;
    let high = spot.high;
    let b = choose(part, n, step, key, marks, best);
    let m = keep_links(out, 0, part, spot.low, step, b);
    put_link(out, m, key, marks);
    let from = high * LINK;
    let links = keep_links(out, m + 1, &part[from..], n - high, step, b);
    Left {
        links,
        best: b,
        marks,
    }
}

// Writes the links after counting: current moves up, and the message's number is marked on this link, which stands at this spot.
pub fn recount(
    out: &mut [u64],
    part: &[u64],
    n: usize,
    spot: Spot,
    step: Step,
    key: u64,
    best: u64,
) -> Left
    requires link_cells_in_bounds { (n * link_cells ≤ length part.now) × (n ≤ link_most) × Bounded step.policy × (step.below < window_most) }
    requires blank { Blank out.old × SpotOf (links_from n part.now) key spot }
    ensures { Recounted out.new result step key best (moved step n part.now) }
{
    let p = step.policy;
    let held = spot.marks;
    let marks = mark(shift(p.window, step.up, held), step.below);
    let spot = Spot {
        low: spot.low,
        high: spot.high,
        marks,
    };
    arrange(out, part, n, spot, step, key, best)
}
