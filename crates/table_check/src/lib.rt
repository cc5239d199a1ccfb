// The check of a whole table, which every call but make and packet check begins with.
#![tactic(auto)]

ghost use Rattle.std.specs.Prelude.{◌≡◌, cond, ℕ, ◌*◌, ◌≤◌, ◌<◌, ltb, length, get_or};
ghost use Rattle.lists.specs.Lists.{and};
ghost use Rattle.rules.specs.Settings.{Config, interface_most, record_cells};
ghost use Rattle.rules.specs.WellFormed.{row_tests};
ghost use Rattle.table_record_check.specs.Limits.{Describes};
ghost use Rattle.table_layout.specs.Layout.{used_at, time_at, own_place};
ghost use Rattle.table_layout.specs.Cells.{config_in, sends_in, well_formed};
ghost use Rattle.table_check.specs.Check.{neighbours_ok, record_rows_ok};
ghost use Rattle.table_layout.specs.Facts.{Sized, Numbered};

use cells::all_zero;
use rules::limits::{INTERFACES_MOST, PAIRS};
use table_layout::{
    INTERFACE, INTERFACES_FROM, LAST, NEIGHBOUR, NEIGHBOURS_FROM, OWN_0, RECORDS, RECORDS_FROM,
    ROWS, SENT, TIME, TIMEOUT, USED, WINDOW,
};
use table_record::{ADDRESS, WIDTH};
use table_record_check::{Limits, record_ok};
use table_settings::{head_ok, interfaces_ok};
use window::{NUMBERS, distance};

// Whether a neighbour row names an interface in use that has sent, and its distance is below the link timeout.
fn neighbour_ok(cells: &[u64], pair: u64, number: u64) -> bool
    requires { Sized cells.now × Numbered cells.now }
    ensures { result ≡ and (row_tests (config_in cells.now) (sends_in cells.now) (pair, number)) }
{
    if NUMBERS <= number {
        return false;
    }
    let i = pair % INTERFACES_MOST;
    let at = INTERFACES_FROM + i as usize * INTERFACE;
    let last = cells[at + LAST];
    (pair < PAIRS)
        & ((i < cells[USED])
            & ((cells[at + SENT] == 1) & (distance(last as u16, number as u16) < cells[TIMEOUT])))
}

// Whether the neighbour rows are a table's: each by itself, rising by the pair, the unused rows zero. Its loop is like that of the records; as one function
// of a width and a test, what the test promises of a row would be longer than both loops.
fn neighbours_ok(cells: &[u64]) -> bool
    requires { Sized cells.now × Numbered cells.now }
    ensures { result ≡ neighbours_ok cells.now }
{
    let end = cells[ROWS] as usize * NEIGHBOUR;
    let (rows, unused) = cells[NEIGHBOURS_FROM..RECORDS_FROM].split_at(end);
    if !all_zero(unused) {
        return false;
    }
    let mut low = 0;
    for row in rows.chunks_exact(NEIGHBOUR) {
        let pair = row[0];
        if !((low <= pair) & neighbour_ok(cells, pair, row[1])) {
            return false;
        }
        low = pair + 1;
    }
    true
}

// The own address of interface i, or the first one where i is not in use.
fn own_at(cells: &[u64], i: usize) -> u64
    requires { Sized cells.now × (i < interface_most) }
    ensures { result ≡ cond (ltb i (get_or cells.now used_at 0)) (get_or cells.now (own_place i) 0) (get_or cells.now (own_place 0) 0) }
{
    if (i as u64) < cells[USED] {
        cells[INTERFACES_FROM + i * INTERFACE]
    } else {
        cells[INTERFACES_FROM]
    }
}

// What the records are held to.
fn limits_of(cells: &[u64]) -> Limits
    requires { Sized cells.now }
    ensures { Describes (config_in cells.now) (get_or cells.now time_at 0) result }
{
    Limits {
        window: cells[WINDOW],
        used: cells[USED],
        time: cells[TIME],
        own: [
            cells[OWN_0],
            own_at(cells, 1),
            own_at(cells, 2),
            own_at(cells, 3),
        ],
    }
}

// Whether the records are a table's: each by itself, rising by the address, the cells after them zero. Not inlined, and these cells first: behind tests that
// return early LLVM takes a loop for cold and no longer aligns it, which cost a tenth of every call.
#[inline(never)]
fn records_ok(part: &[u64], n: usize, limits: Limits) -> bool
    requires { n * record_cells ≤ length part.now }
    ensures { (κ : Config) (time : ℕ) → Describes κ time limits → result ≡ record_rows_ok κ time n part.now }
{
    let (rows, unused) = part.split_at(n * WIDTH);
    if !all_zero(unused) {
        return false;
    }
    let mut low = 0;
    for row in rows.chunks_exact(WIDTH) {
        if !record_ok(row, low, limits) {
            return false;
        }
        low = row[ADDRESS] + 1;
    }
    true
}

// Whether the cells, however many, are those of a well-formed table.
pub fn well_formed(cells: &[u64]) -> bool
    ensures { result ≡ well_formed cells.now }
{
    if !head_ok(cells) {
        return false;
    }
    if !interfaces_ok(cells) {
        return false;
    }
    if !neighbours_ok(cells) {
        return false;
    }
    let limits = limits_of(cells);
    records_ok(&cells[RECORDS_FROM..], cells[RECORDS] as usize, limits)
}
