// Making a table in the cells that are lent.
#![tactic(auto)]

ghost use Rattle.std.specs.Prelude.{◌≡◌, ◌≤◌};
ghost use Rattle.std.proofs.Math.Option.{none};
ghost use Rattle.rules.specs.Settings.{make_allowed, interface_most};
ghost use Rattle.rules.specs.Calls.{answered, made, make};
ghost use Rattle.table_layout.specs.Interfaces.{encode_interface};
ghost use Rattle.table_layout.specs.Calls.{Performed};
ghost use Rattle.call_make.specs.Make.{make_args, needed_for, fresh_head, fresh_rows};

use cells_moves::{fill, write};
use rules::limits::{CAPACITY_MOST, INTERFACES_MOST};
use rules::{Interface, Settings};
use table_layout::{HEAD, INTERFACE, INTERFACE_AREA, INTERFACES_FROM, RECORDS_FROM};
use table_record::WIDTH;
use table_settings::{own_differ, settings_ok};
use wire::refusals::Refusal;

// How many cells a capacity needs; 0 for one that is not allowed.
pub fn cells_needed(capacity: u64) -> u64
    ensures { result ≡ needed_for capacity }
{
    if (1 <= capacity) & (capacity <= CAPACITY_MOST) {
        return (RECORDS_FROM as u64) + capacity * (WIDTH as u64);
    }
    0
}

// Whether a table can be made in n cells.
fn make_allowed(n: usize, settings: Settings, rows: [Interface; 4], used: u64) -> bool
    ensures { result ≡ make_allowed n (make_args settings rows used) }
{
    if !settings_ok(settings) {
        return false;
    }
    if !((1 <= used) & (used <= INTERFACES_MOST)) {
        return false;
    }
    let [a, b, c, d] = rows;
    if !own_differ(a.own as u64, b.own as u64, c.own as u64, d.own as u64, used) {
        return false;
    }
    n == RECORDS_FROM + settings.capacity as usize * WIDTH
}

// The cells of a fresh table's head.
fn fresh_head(settings: Settings, used: u64) -> [u64; HEAD]
    ensures { result ≡ fresh_head settings used }
{
    [
        settings.version,
        settings.window,
        settings.timeout,
        settings.purge,
        settings.capacity,
        settings.tie,
        used,
        0,
        0,
        0,
    ]
}

// The cells of an interface that has not sent.
#[tactic(auto, unfolding(table_layout::specs::Interfaces::encode_interface))]
fn fresh_row(row: Interface) -> [u64; INTERFACE]
    ensures { result ≡ encode_interface (row, none) }
{
    [
        u64::from(row.own),
        u64::from(row.broadcast),
        u64::from(row.first),
        0,
        0,
    ]
}

// The cells of a fresh table's interface rows: those in use, none of which has sent, and zeros.
fn fresh_rows(rows: [Interface; 4], used: u64) -> [u64; INTERFACE_AREA]
    requires { (1 ≤ used) × (used ≤ interface_most) }
    ensures { result ≡ fresh_rows rows used }
{
    let mut cells = [0; INTERFACE_AREA];
    for i in 0..used as usize {
        write(&mut cells, i * INTERFACE, &fresh_row(rows[i]));
    }
    cells
}

// Makes a table: 0 and a fresh table in all cells, whatever they held, or 12 and nothing changed.
pub fn make(cells: &mut [u64], settings: Settings, rows: [Interface; 4], used: u64) -> u64
    ensures { Performed cells.old (make (make_args settings rows used)) (answered (made result)) cells.new }
{
    if !make_allowed(cells.len(), settings, rows, used) {
        return Refusal::NotAllowed.number();
    }
    let head = fresh_head(settings, used);
    let interfaces = fresh_rows(rows, used);
    fill(cells, &head);
    write(cells, INTERFACES_FROM, &interfaces);
    0
}
