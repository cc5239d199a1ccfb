// The neighbour rows in their area of cells: found, recorded and dropped.
#![tactic(auto)]

ghost use Rattle.std.specs.Prelude.{◌≡◌, ◌+◌, ◌<◌, length};
ghost use Rattle.lists.specs.Lists.{keep, all};
ghost use Rattle.lists.specs.Keyed.{has_key};
ghost use Rattle.cells.specs.Pairs.{pair_area, pairs_of};
ghost use Rattle.window.specs.Window.{numbers};
ghost use Rattle.rules.specs.Settings.{neighbour_most};
ghost use Rattle.table_neighbours.specs.Neighbours.{RowsHeld, EchoTaken, stays_after};

use cells::{PAIR, find};
use cells_moves::{keep_where, put_in, write};
use rules::limits::{INTERFACES_MOST, NEIGHBOURS_MOST};
use window::{NUMBERS, distance};

// The cells of a row: a link, and the number recorded for it. How many rows there is room for.
const ROW: usize = PAIR;

const ROOM: usize = NEIGHBOURS_MOST as usize;

// Whether a link has a row: it is bidirectional.
pub fn has_row(rows: &[u64], n: usize, link: u64) -> bool
    requires { RowsHeld n rows.now }
    ensures { result ≡ has_key link (pairs_of n rows.now) }
{
    find(rows, ROW, n, link).found.is_ok()
}

// The row of a link takes a number, made if absent; and how many rows are held then, or none where there is no room for one more.
pub fn record_echo(rows: &mut [u64], n: usize, link: u64, number: u64) -> Option<usize>
    requires { RowsHeld n rows.old }
    ensures { EchoTaken n rows.old rows.new link number result }
{
    let row = [link, number];
    match find(rows, ROW, n, link).found {
        Ok(i) => {
            write(rows, i * ROW, &row);
            Some(n)
        }
        Err(i) => {
            if n == ROOM {
                return None;
            }
            put_in(rows, i * ROW, &row);
            Some(n + 1)
        }
    }
}

// Whether a row stays when an interface has sent the number `last`.
fn stays(link: u64, number: u64, interface: u64, last: u16, timeout: u64) -> bool
    requires { number < numbers }
    ensures { result ≡ stays_after interface last timeout (link, number) }
{
    (link % INTERFACES_MOST != interface) | (distance(last, (number % NUMBERS) as u16) < timeout)
}

// Whether every row stays, as they nearly always do.
fn all_stay(rows: &[u64], n: usize, interface: u64, last: u16, timeout: u64) -> bool
    requires { RowsHeld n rows.now }
    ensures { result ≡ all (stays_after interface last timeout) (pairs_of n rows.now) }
{
    (0..n).all(|i| stays(rows[i * ROW], rows[i * ROW + 1], interface, last, timeout))
}

// Keeps the rows that stay; and how many are held then.
fn keep_rows(rows: &mut [u64], n: usize, interface: u64, last: u16, timeout: u64) -> usize
    requires { RowsHeld n rows.old }
    ensures { (rows.new ≡ pair_area neighbour_most (keep (stays_after interface last timeout) (pairs_of n rows.old))) × (result ≡ length (keep (stays_after interface last timeout) (pairs_of n rows.old))) }
{
    keep_where(
        rows,
        ROW,
        n,
        |row| stays(row[0], row[1], interface, last, timeout),
    )
}

// Drops an interface's rows that are too far behind its last number; and how many are held then.
pub fn drop_old(rows: &mut [u64], n: usize, interface: u64, last: u16, timeout: u64) -> usize
    requires { RowsHeld n rows.old }
    ensures { (rows.new ≡ pair_area neighbour_most (keep (stays_after interface last timeout) (pairs_of n rows.old))) × (result ≡ length (keep (stays_after interface last timeout) (pairs_of n rows.old))) }
{
    if all_stay(rows, n, interface, last, timeout) {
        return n;
    }
    keep_rows(rows, n, interface, last, timeout)
}
