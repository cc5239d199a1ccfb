// One originator's record in its cells: where its parts stand, its links and entries, and the route that it gives.
#![tactic(auto)]

ghost use Rattle.std.specs.Prelude.{◌≡◌, ◌+◌, ◌*◌, ◌≤◌, ◌<◌, length};
ghost use Rattle.std.proofs.Math.Option.{some};
ghost use Rattle.cells.specs.Area.{written};
ghost use Rattle.cells.specs.Find.{Sorted};
ghost use Rattle.window.specs.Marks.{word_of};
ghost use Rattle.window.specs.Window as W;
ghost use Rattle.rules.specs.Settings.{Config, link_cells, record_cells};
ghost use Rattle.rules.specs.Calls.{pairs, route_by};
ghost use Rattle.rules.specs.Rules.{route_of};
ghost use Rattle.rules.specs.Table.{table, marks_at};
ghost use Rattle.table_record.specs.Links.{link_row, links_from, link_at};
ghost use Rattle.table_record.specs.Record.{links_part, entries_part, decode_record, Held};

use cells::find;
use rules::Route;
use rules::limits::{ENTRIES_MOST, INTERFACES_MOST, LINKS_MOST};
use window::{Marks, count, no_marks};

// The places of a record's fields.
pub const ADDRESS: usize = 0;

pub const CURRENT: usize = 1;

pub const TIME: usize = 2;

pub const LAST_TTL: usize = 3;

// How many links are held.
pub const LINKS: usize = 4;

// The best link's pair.
pub const BEST: usize = 5;

// How many entries are held.
pub const ENTRIES: usize = 6;

// The cells before the links.
pub const FIELDS: usize = ENTRIES + 1;

// The cells of a link: its pair, the key, and its marks.
pub const LINK: usize = 2;

const MARKS: usize = 1;

// The cells that there are for links, and where they end.
pub const LINKS_CELLS: usize = LINKS_MOST as usize * LINK;

pub const LINKS_END: usize = FIELDS + LINKS_CELLS;

// The cells of a record: after the links one for each entry.
pub const WIDTH: usize = LINKS_END + ENTRIES_MOST as usize;

// The cells of a record's links.
pub fn links_part(row: &[u64]) -> &[u64]
    requires { length row.now ≡ record_cells }
    ensures { result.now ≡ links_part row.now }
{
    &row[FIELDS..LINKS_END]
}

// The cells of a record's entries.
pub fn entries_part(row: &[u64]) -> &[u64]
    requires { length row.now ≡ record_cells }
    ensures { result.now ≡ entries_part row.now }
{
    &row[LINKS_END..WIDTH]
}

// The key of the link at place i.
pub fn key_at(part: &[u64], i: usize) -> u64
    requires { (i + 1) * link_cells ≤ length part.now }
    ensures { result ≡ (link_at part.now i).0 }
{
    part[i * LINK]
}

// The marks of the link at place i.
pub fn marks_at(part: &[u64], i: usize) -> Marks
    requires { (i + 1) * link_cells ≤ length part.now }
    ensures { word_of result ≡ (link_at part.now i).1 }
{
    Marks {
        word: part[i * LINK + MARKS],
    }
}

// Writes a link at place i.
pub fn put_link(out: &mut [u64], i: usize, key: u64, marks: Marks)
    requires { (i + 1) * link_cells ≤ length out.old }
    ensures { out.new ≡ written out.old (i * link_cells) (link_row (key, word_of marks)) }
{
    let at = i * LINK;
    out[at] = key;
    out[at + MARKS] = marks.word;
}

// The marks of a link, none for one that is not held.
pub fn marks_of(part: &[u64], n: usize, key: u64) -> Marks
    requires { Sorted link_cells n part.now }
    ensures { word_of result ≡ marks_at (links_from n part.now) key }
{
    match find(part, LINK, n, key).found {
        Ok(i) => marks_at(part, i),
        Err(_) => no_marks(),
    }
}

// The route by a link with these marks: neighbour, interface, count and window together.
pub fn route_by(link: u64, marks: Marks, window: u32) -> Route
    requires { link < pairs }
    ensures { result ≡ route_by link (W.count (word_of marks)) window }
{
    Route {
        neighbour: (link / INTERFACES_MOST) as u32,
        interface: (link % INTERFACES_MOST) as u32,
        count: count(marks),
        window,
    }
}

// The route by the best link.
pub fn route_of(row: &[u64], window: u32) -> Route
    requires { Held row.now }
    ensures { (κ : Config) → window ≡ κ.settings.window → result ≡ route_of table κ (some (decode_record row.now).1) }
{
    let best = row[BEST];
    let marks = marks_of(links_part(row), row[LINKS] as usize, best);
    route_by(best, marks, window)
}
