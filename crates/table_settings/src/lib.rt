// Settings and interface rows: what make is given, and what the cells hold of them.
#![tactic(auto)]

ghost use Rattle.std.specs.Prelude.{◌≡◌, ◌&&◌, [], ◌∷◌, ◌*◌, ◌≤◌, length, take, drop};
ghost use Rattle.lists.specs.Lists.{all};
ghost use Rattle.cells.specs.Area.{all_zero, rows_of};
ghost use Rattle.rules.specs.Settings.{settings_ok, differ, interface_most, head_cells, interface_cells};
ghost use Rattle.table_layout.specs.Cells.{settings_in};
ghost use Rattle.table_settings.specs.Check.{head_ok, interface_row_ok, interfaces_ok};
ghost use Rattle.table_layout.specs.Facts.{Sized};

use cells::all_zero;
use rules::Settings;
use rules::limits::{
    ADDRESSES, CAPACITY_MOST, INTERFACES_MOST, NEIGHBOURS_MOST, PURGE_MOST, TIE_MOST, TIMEOUT_MOST,
    VERSION_MOST, WINDOW_MOST,
};
use table_layout::{
    BROADCAST, CAPACITY, FIRST, INTERFACE, INTERFACES_FROM, LAST, NEIGHBOURS_FROM, OWN, OWN_0,
    OWN_1, OWN_2, OWN_3, PURGE, RECORDS, RECORDS_FROM, ROWS, SENT, TIE, TIMEOUT, USED, VERSION,
    WINDOW,
};
use table_record::WIDTH;
use window::NUMBERS;

// Whether the settings are allowed. Nested to the right, the tests are left at the first that fails; in a row they are all computed.
pub fn settings_ok(s: Settings) -> bool
    ensures { result ≡ settings_ok s }
{
    (s.version <= VERSION_MOST)
        & (((1 <= s.window) & (s.window <= WINDOW_MOST))
            & (((1 <= s.timeout) & (s.timeout <= TIMEOUT_MOST))
                & (((1 <= s.purge) & (s.purge <= PURGE_MOST))
                    & (((1 <= s.capacity) & (s.capacity <= CAPACITY_MOST)) & (s.tie <= TIE_MOST)))))
}

// Whether the first `used` of four addresses differ.
pub fn own_differ(a: u64, b: u64, c: u64, d: u64, used: u64) -> bool
    requires { (1 ≤ used) × (used ≤ interface_most) }
    ensures { result ≡ differ (take used (a ∷ b ∷ c ∷ d ∷ [])) }
{
    ((used < 2) | (a != b))
        & (((used < 3) | ((a != c) & (b != c))) & ((used < 4) | ((a != d) & ((b != d) & (c != d)))))
}

// The settings that the cells hold.
pub fn settings_in(cells: &[u64]) -> Settings
    requires { head_cells ≤ length cells.now }
    ensures { result ≡ settings_in cells.now }
{
    Settings {
        version: cells[VERSION],
        window: cells[WINDOW],
        timeout: cells[TIMEOUT],
        purge: cells[PURGE],
        capacity: cells[CAPACITY],
        tie: cells[TIE],
    }
}

// Whether the head is allowed, and the cells are as many as the capacity needs.
pub fn head_ok(cells: &[u64]) -> bool
    ensures { result ≡ head_ok cells.now }
{
    if cells.len() < RECORDS_FROM {
        return false;
    }
    let s = settings_in(cells);
    if !settings_ok(s) {
        return false;
    }
    ((1 <= cells[USED]) & (cells[USED] <= INTERFACES_MOST))
        & ((cells[ROWS] <= NEIGHBOURS_MOST)
            & ((cells[RECORDS] <= s.capacity)
                & (cells.len() == RECORDS_FROM + s.capacity as usize * WIDTH)))
}

// Whether an interface row is in its ranges.
fn interface_row_ok(row: &[u64]) -> bool
    requires { length row.now ≡ interface_cells }
    ensures { result ≡ interface_row_ok row.now }
{
    let sent = row[SENT];
    let last = row[LAST];
    (row[OWN] < ADDRESSES)
        & ((row[BROADCAST] < ADDRESSES)
            & ((row[FIRST] < NUMBERS)
                & ((sent <= 1) & ((last < NUMBERS) & ((sent == 1) | (last == 0))))))
}

// Whether the rows of the interfaces in use are in their ranges, and the others zero.
fn interface_rows_ok(part: &[u64], used: usize) -> bool
    requires { used * interface_cells ≤ length part.now }
    ensures { result ≡ all interface_row_ok (rows_of interface_cells used part.now) && all_zero (drop (used * interface_cells) part.now) }
{
    let (rows, unused) = part.split_at(used * INTERFACE);
    rows.chunks_exact(INTERFACE).all(interface_row_ok) & all_zero(unused)
}

// Whether the interface rows are a table's: in their ranges, the own addresses in use different, the unused rows zero.
pub fn interfaces_ok(cells: &[u64]) -> bool
    requires { Sized cells.now }
    ensures { result ≡ interfaces_ok cells.now }
{
    let used = cells[USED];
    interface_rows_ok(&cells[INTERFACES_FROM..NEIGHBOURS_FROM], used as usize)
        & own_differ(cells[OWN_0], cells[OWN_1], cells[OWN_2], cells[OWN_3], used)
}
