// The sweep: records whose time is more than the purge timeout ago are removed.
#![tactic(auto)]

ghost use Rattle.std.specs.Prelude.{◌≡◌, not, ◌-◌, ◌≤◌, ltb, get_or};
ghost use Rattle.table_layout.specs.Layout.{time_at};
ghost use Rattle.table_layout.specs.Facts.{Knows};
ghost use Rattle.table_layout.specs.Calls.{Performed};
ghost use Rattle.table_changes.specs.Left.{Left};
ghost use Rattle.rules.specs.Calls as C;
ghost use Rattle.call_sweep.specs.Sweeping.{RecordsHeld, Kept, purged, swept_as};

use cells_moves::keep_where;
use rules::Swept;
use table_check::well_formed;
use table_layout::{PURGE, RECORDS, RECORDS_FROM, TIME};
use table_record::WIDTH;
use wire::refusals::Refusal;

// Where a record's time stands in its row.
const SEEN: usize = table_record::TIME;

// Whether a time is at most the purge timeout ago.
fn is_recent(seen: u64, time: u64, purge: u64) -> bool
    requires { seen ≤ time }
    ensures { result ≡ not (ltb purge (time - seen)) }
{
    time - seen <= purge
}

// Removes the expired ones of n records, and answers how many are held then.
fn keep_recent(part: &mut [u64], n: usize, time: u64, purge: u64) -> usize
    requires { RecordsHeld n time part.old }
    ensures { Kept n time purge part.old part.new result }
{
    keep_where(part, WIDTH, n, |row| is_recent(row[SEEN], time, purge))
}

// The answer, put together here alone.
fn swept_as(number: u64, removed: u64) -> Swept
    ensures { result ≡ swept_as number removed }
{
    Swept { number, removed }
}

// Removes the expired records, and sets the time.
fn sweep_records(cells: &mut [u64], time: u64) -> Swept
    requires { Knows cells.old × (get_or cells.old time_at 0 ≤ time) }
    ensures { Left (purged cells.old time) (C.answered (C.swept result)) cells.new }
{
    let n = cells[RECORDS] as usize;
    let purge = cells[PURGE];
    let kept = keep_recent(&mut cells[RECORDS_FROM..], n, time, purge);
    cells[RECORDS] = kept as u64;
    cells[TIME] = time;
    swept_as(0, (n - kept) as u64)
}

// Removes the records whose time is more than the purge timeout ago, or refuses.
pub fn sweep(cells: &mut [u64], time: u64) -> Swept
    ensures { Performed cells.old (C.sweep time) (C.answered (C.swept result)) cells.new }
{
    if !well_formed(cells) {
        return swept_as(Refusal::NotWellFormed.number(), 0);
    }
    if time < cells[TIME] {
        return swept_as(Refusal::TimeBefore.number(), 0);
    }
    sweep_records(cells, time)
}
