// A message's entries on their way to its originator's record: whether they are too many, and how they are written to the record's row.
#![tactic(auto)]

ghost use Rattle.std.specs.Prelude.{◌≡◌, ◌≤◌, ltb, length};
ghost use Rattle.cells.specs.Area.{fit, written};
ghost use Rattle.wire.specs.Check.{entries};
ghost use Rattle.wire.specs.Entries.{entries_of};
ghost use Rattle.rules.specs.Settings.{entry_most, record_cells};
ghost use Rattle.count_entries.specs.Entries.{kept_in};

use cells_moves::clear;
use packet_codec::entries::{entry_at, entry_count};
use rules::limits::ENTRIES_MOST;
use table_record::{ENTRIES, LINKS_END};

// Whether a record may not keep so many entries.
pub fn too_many(hna: &[u8]) -> bool
    ensures { result ≡ ltb entry_most (entries hna.now) }
{
    ENTRIES_MOST < entry_count(hna) as u64
}

// Writes the entries over the first cells, n of them.
fn write_entries(part: &mut [u64], hna: &[u8], n: usize)
    requires { (n ≡ entries hna.now) × (n ≤ length part.old) }
    ensures { part.new ≡ written part.old 0 (entries_of hna.now) }
{
    for k in 0..n {
        part[k] = entry_at(hna, k);
    }
}

// Writes the entries, and zeros over all cells behind them.
fn fill_entries(part: &mut [u64], hna: &[u8])
    requires { entries hna.now ≤ length part.old }
    ensures { part.new ≡ fit (length part.old) (entries_of hna.now) }
{
    let n = entry_count(hna);
    write_entries(part, hna, n);
    clear(&mut part[n..]);
}

// A record's row keeps these entries for those that it had.
pub fn keep_entries(row: &mut [u64], hna: &[u8])
    requires { (length row.old ≡ record_cells) × (entries hna.now ≤ entry_most) }
    ensures { row.new ≡ kept_in row.old hna.now }
{
    row[ENTRIES] = entry_count(hna) as u64;
    fill_entries(&mut row[LINKS_END..], hna);
}
