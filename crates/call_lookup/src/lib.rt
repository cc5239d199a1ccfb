// The lookup: which originator's entry covers an address, the longest mask first.
#![tactic(auto)]

ghost use Rattle.std.specs.Prelude.{◌≡◌, true, ◌≤◌, eqb, length, get_or};
ghost use Rattle.wire.specs.Layout.{mask_most};
ghost use Rattle.wire.specs.Entries.{network_of, mask_of};
ghost use Rattle.rules.specs.Calls.{located_as, locate, located, answered};
ghost use Rattle.rules.specs.Lookup.{leading};
ghost use Rattle.rules.specs.Rules.{entries_held};
ghost use Rattle.rules.specs.Table.{table};
ghost use Rattle.rules.specs.WellFormed.{entries_ok};
ghost use Rattle.table_record.specs.Record.{address_at, entries_in};
ghost use Rattle.table_layout.specs.Calls.{Performed};
ghost use Rattle.table_layout.specs.Cells.{decode};
ghost use Rattle.table_layout.specs.Facts.{Knows};
ghost use Rattle.call_lookup.specs.Scan.{IsEntry, HoldsEntries, none_seen, seen_one, seen_by, seen_all, located_at};

use rules::Located;
use rules::limits::OCTETS;
use table_check::well_formed;
use table_layout::RECORDS;
use table_originators::record_at;
use table_record::{ADDRESS, ENTRIES, entries_part};
use wire::MASK_MOST;
use wire::refusals::Refusal;

// The best entry seen so far, and its originator. `least` is the shortest mask that is better: one more than its own, or 0 while there is none.
// No `Option`: every entry is held against `least`, and an `Option` was measured to cost a lookup a tenth more.
#[derive(Clone, Copy, Default)]
pub struct Best {
    pub least: u32,
    pub originator: u32,
    pub network: u32,
}

fn mask_of(entry: u64) -> u32
    ensures { result ≡ mask_of entry }
{
    (entry % OCTETS) as u32
}

fn network_of(entry: u64) -> u32
    requires { IsEntry entry }
    ensures { result ≡ network_of entry }
{
    (entry / OCTETS) as u32
}

// Whether two addresses agree in as many leading bits as the mask says. Of 64 bits, so that mask 0 leaves none of 32.
fn agree(mask: u32, a: u32, b: u32) -> bool
    requires { mask ≤ mask_most }
    ensures { result ≡ eqb (leading mask a) (leading mask b) }
{
    let spare = MASK_MOST as u32 - mask;
    a as u64 >> spare == b as u64 >> spare
}

// The best once an entry is seen. Most have too short a mask or do not cover the address.
fn seen_one(best: Best, address: u32, originator: u32, entry: u64) -> Best
    requires { IsEntry entry }
    ensures { result ≡ seen_one address originator entry best }
{
    let mask = mask_of(entry);
    if mask < best.least {
        return best;
    }
    let network = network_of(entry);
    if !agree(mask, network, address) {
        return best;
    }
    Best {
        least: mask + 1,
        originator,
        network,
    }
}

// The best once an originator's entries are seen, in their order.
fn seen_by(entries: &[u64], address: u32, originator: u32, best: Best) -> Best
    requires { entries_ok entries.now ≡ true }
    ensures { result ≡ seen_by address originator entries.now best }
{
    let mut best = best;
    for entry in entries {
        best = seen_one(best, address, originator, *entry);
    }
    best
}

// The best once a record's entries are seen.
fn seen_in(row: &[u64], address: u32, best: Best) -> Best
    requires { HoldsEntries row.now }
    ensures { result ≡ seen_by address (get_or row.now address_at 0) (entries_in row.now) best }
{
    let n = row[ENTRIES] as usize;
    let entries = &entries_part(row)[..n];
    seen_by(entries, address, row[ADDRESS] as u32, best)
}

// The best of all entries, record after record.
fn seen_all(cells: &[u64], address: u32) -> Best
    requires { Knows cells.now }
    ensures { result ≡ seen_all address (entries_held table (decode cells.now)) none_seen }
{
    let n = cells[RECORDS] as usize;
    let mut best = Best::default();
    for i in 0..n {
        best = seen_in(record_at(cells, i), address, best);
    }
    best
}

// No entry found: refused with this number, or answered with 0.
fn none_located(number: u64) -> Located
    ensures { result ≡ located_as number 0 0 0 0 }
{
    Located {
        number,
        found: 0,
        originator: 0,
        network: 0,
        mask: 0,
    }
}

// The answer that the best gives.
fn located_at(best: Best) -> Located
    ensures { result ≡ located_at best }
{
    if best.least == 0 {
        return none_located(0);
    }
    Located {
        number: 0,
        found: 1,
        originator: best.originator,
        network: best.network,
        mask: best.least - 1,
    }
}

// The originator and the entry with the longest mask that covers the address: refusal 1, or found or not. Of equal masks the smaller originator's goes
// first, then the earlier in its list.
pub fn lookup(cells: &[u64], address: u32) -> Located
    ensures { Performed cells.now (locate address) (answered (located result)) cells.now }
{
    if !well_formed(cells) {
        return none_located(Refusal::NotWellFormed.number());
    }
    located_at(seen_all(cells, address))
}
