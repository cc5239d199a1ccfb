// The list call: the rows of an originator's links are looked up, then written to the caller's.
#![tactic(auto)]

ghost use Rattle.std.specs.Prelude.{◌≡◌, [], cond, ◌≤◌, ◌<◌, length, take};
ghost use Rattle.std.proofs.Math.Option.{some};
ghost use Rattle.lists.specs.Lists.{written_to};
ghost use Rattle.lists.specs.Keyed.{lookup};
ghost use Rattle.window.specs.Marks.{word_of};
ghost use Rattle.rules.specs.Settings.{Config, link_most};
ghost use Rattle.rules.specs.Calls.{pairs};
ghost use Rattle.rules.specs.Rules.{link_rows};
ghost use Rattle.rules.specs.Table.{table};
ghost use Rattle.table_record.specs.Record.{decode_record};
ghost use Rattle.table_layout.specs.Cells.{decode};
ghost use Rattle.table_layout.specs.Facts.{Knows};
ghost use Rattle.call_list.specs.Listing.{zero_row, row_of, Listable, Finds, Settles};

use rules::LinkRow;
use rules::limits::{INTERFACES_MOST, LINKS_MOST};
use table_check::well_formed;
use table_layout::WINDOW;
use table_originators::{find_record, record_at};
use table_record::{BEST, LINKS, key_at, links_part, marks_at};
use window::{Marks, count};
use wire::refusals::Refusal;

// As many rows as a record has room for links.
const ROWS_MOST: usize = LINKS_MOST as usize;

// What is looked up: the first n rows are those of the links held. An array of the most rows and how many there are, since nothing is allocated.
#[derive(Clone, Copy)]
pub struct Links {
    pub rows: [LinkRow; ROWS_MOST],
    pub n: usize,
}

// A row of zeros.
fn zero_row() -> LinkRow
    ensures { result ≡ zero_row }
{
    LinkRow::default()
}

// No rows.
fn no_links() -> Links
    ensures { Finds [] result }
{
    let rows = [zero_row(); ROWS_MOST];
    Links { rows, n: 0 }
}

// The row of a link.
fn row_of(pair: u64, marks: Marks, window: u32, best: u64) -> LinkRow
    requires { pair < pairs }
    ensures { result ≡ row_of window best (pair, word_of marks) }
{
    LinkRow {
        neighbour: (pair / INTERFACES_MOST) as u32,
        interface: (pair % INTERFACES_MOST) as u32,
        count: count(marks),
        window,
        best: u32::from(best == pair),
    }
}

// The rows of a record's links, in their order.
fn rows_of(row: &[u64], window: u32) -> Links
    requires { Listable row.now }
    ensures { (κ : Config) → window ≡ κ.settings.window → Finds (link_rows table κ (some (decode_record row.now).1)) result }
{
    let part = links_part(row);
    let best = row[BEST];
    let n = row[LINKS] as usize;
    let mut rows = [zero_row(); ROWS_MOST];
    for i in 0..n {
        rows[i] = row_of(key_at(part, i), marks_at(part, i), window, best);
    }
    Links { rows, n }
}

// The rows of an originator's links, in a table that is well-formed; none where no record is held.
fn held_links(cells: &[u64], originator: u32) -> Links
    requires { Knows cells.now }
    ensures { Finds (link_rows table (decode cells.now).config (lookup originator (decode cells.now).records)) result }
{
    match find_record(cells, originator).found {
        Ok(i) => rows_of(record_at(cells, i), cells[WINDOW] as u32),
        Err(_) => no_links(),
    }
}

// Looks an originator's links up for a caller that lends `room` rows, or refuses.
pub fn links_of(cells: &[u64], originator: u32, room: usize) -> Result<Links, Refusal>
    ensures { Settles cells.now originator room result }
{
    if !well_formed(cells) {
        return Err(Refusal::NotWellFormed);
    }
    let got = held_links(cells, originator);
    if room < got.n {
        return Err(Refusal::ShortOutput);
    }
    Ok(got)
}

// Writes the rows found at the start of the caller's, in order. Further rows stay as they are.
pub fn fill_rows(rows: &mut [LinkRow], got: Links)
    requires { (got.n ≤ link_most) × (got.n ≤ length rows.old) }
    ensures { rows.new ≡ written_to (take got.n got.rows) rows.old }
{
    rows[..got.n].copy_from_slice(&got.rows[..got.n]);
}
