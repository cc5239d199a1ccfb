// The check of one originator's record, which the check of a table makes of each.
#![tactic(auto)]

mod record_limits;

ghost use Rattle.std.specs.Prelude.{◌≡◌, ℕ, ◌*◌, ◌≤◌, eqb, length, get_or};
ghost use Rattle.lists.specs.Lists.{and, elem};
ghost use Rattle.cells.specs.Area.{fit};
ghost use Rattle.window.specs.Marks.{word_of};
ghost use Rattle.rules.specs.Settings.{Config, window_most, link_most, entry_most, link_cells, record_cells};
ghost use Rattle.rules.specs.WellFormed.{entry_tests, entries_ok};
ghost use Rattle.table_record.specs.Links.{links_from};
ghost use Rattle.table_record.specs.Record.{links_at, entries_at};
ghost use Rattle.table_record_check.specs.Limits.{Describes, own_of, marks_ok, links_ok, links_part_ok, entry_fault, entries_part_ok, FieldsChecked, LinkChecked, RecordChecked};

use cells::all_zero;
pub use record_limits::Limits;
use rules::limits::{
    ADDRESSES, ENTRIES_MOST, ENTRY_VALUES, INTERFACES_MOST, LINKS_MOST, OCTETS, PAIRS,
};
use table_record::{
    ADDRESS, BEST, CURRENT, ENTRIES, LAST_TTL, LINK, LINKS, TIME, entries_part, key_at, links_part,
    marks_at,
};
use window::{Marks, NUMBERS, fits, has_mark};
use wire::MASK_MOST;

fn is_own(limits: Limits, a: u64) -> bool
    ensures { result ≡ elem a (own_of limits) }
{
    limits.own.contains(&a)
}

// Whether a link may have these marks: none outside the window, and one at least unless it is best. The first test is nearly always met.
fn marks_ok(window: u64, best: u64, pair: u64, marks: Marks) -> bool
    requires { (1 ≤ window) × (window ≤ window_most) }
    ensures { result ≡ marks_ok window best pair (word_of marks) }
{
    if has_mark(marks) & fits(window, marks) {
        return true;
    }
    !has_mark(marks) & (pair == best)
}

// Whether a link may be held, where pairs below `low` are passed.
fn link_ok(limits: Limits, best: u64, low: u64, pair: u64, marks: Marks) -> bool
    ensures { LinkChecked limits best low pair (word_of marks) result }
{
    if !((low <= pair) & ((pair < PAIRS) & (pair % INTERFACES_MOST < limits.used))) {
        return false;
    }
    marks_ok(limits.window, best, pair, marks)
}

// Whether the links may be held: each by itself, rising by the pair, best among them.
fn links_ok(part: &[u64], n: usize, limits: Limits, best: u64) -> bool
    requires { n * link_cells ≤ length part.now }
    ensures { (κ : Config) (time : ℕ) → Describes κ time limits → result ≡ links_ok κ best (links_from n part.now) }
{
    let mut low = 0;
    let mut held = false;
    for i in 0..n {
        let pair = key_at(part, i);
        if !link_ok(limits, best, low, pair, marks_at(part, i)) {
            return false;
        }
        held |= best == pair;
        low = pair + 1;
    }
    held
}

// Whether the fields before links and entries are in their ranges, where addresses below `low` are passed. They are read as the cells lie.
fn fields_ok(row: &[u64], low: u64, limits: Limits) -> bool
    requires { length row.now ≡ record_cells }
    ensures { FieldsChecked limits low row.now result }
{
    let address = row[ADDRESS];
    let links = row[LINKS];
    (low <= address)
        & ((address < ADDRESSES)
            & (!is_own(limits, address)
                & ((row[CURRENT] < NUMBERS)
                    & ((row[TIME] <= limits.time)
                        & ((row[LAST_TTL] < OCTETS)
                            & ((1 <= links)
                                & ((links <= LINKS_MOST) & (row[ENTRIES] <= ENTRIES_MOST))))))))
}

// What is added to a mask so that one that is too long is no longer an octet.
const MASK_SPARE: u64 = OCTETS - 1 - MASK_MOST as u64;

// 0 exactly for an entry that a record may keep: its network is an address, and its mask is not too long.
fn entry_fault(entry: u64) -> u64
    ensures value { result ≡ entry_fault entry }
    ensures tests { eqb result 0 ≡ and (entry_tests entry) }
{
    entry / ENTRY_VALUES + (entry % OCTETS + MASK_SPARE) / OCTETS
}

// Whether a record may keep its entries, each by itself. The faults of all are joined, with no early exit: there nearly always are none, and the loop
// is then done several entries at a time.
fn entries_ok(part: &[u64], n: usize) -> bool
    requires { n ≤ length part.now }
    ensures { result ≡ entries_ok (fit n part.now) }
{
    let mut faults = 0;
    for &entry in &part[..n] {
        faults |= entry_fault(entry);
    }
    faults == 0
}

// Whether the cells of the links are those of links that may be held, and zeros behind them.
fn links_part_ok(row: &[u64], limits: Limits) -> bool
    requires { (length row.now ≡ record_cells) × (get_or row.now links_at 0 ≤ link_most) }
    ensures { (κ : Config) (time : ℕ) → Describes κ time limits → result ≡ links_part_ok κ row.now }
{
    let part = links_part(row);
    let n = row[LINKS] as usize;
    let end = n * LINK;
    links_ok(part, n, limits, row[BEST]) & all_zero(&part[end..])
}

// Whether the cells of the entries are those of entries that may be kept, and zeros behind them.
fn entries_part_ok(row: &[u64]) -> bool
    requires { (length row.now ≡ record_cells) × (get_or row.now entries_at 0 ≤ entry_most) }
    ensures { result ≡ entries_part_ok row.now }
{
    let part = entries_part(row);
    let n = row[ENTRIES] as usize;
    entries_ok(part, n) & all_zero(&part[n..])
}

// Whether the cells are those of a record by the rules, where addresses below `low` are passed.
pub fn record_ok(row: &[u64], low: u64, limits: Limits) -> bool
    requires { length row.now ≡ record_cells }
    ensures { RecordChecked limits low row.now result }
{
    if !fields_ok(row, low, limits) {
        return false;
    }
    links_part_ok(row, limits) & entries_part_ok(row)
}
