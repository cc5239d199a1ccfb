// The best question: which link a packet to an originator should take.
#![tactic(auto)]

ghost use Rattle.std.specs.Prelude.{◌≡◌};
ghost use Rattle.std.proofs.Math.Option.{some};
ghost use Rattle.lists.specs.Keyed.{lookup};
ghost use Rattle.rules.specs.Calls.{question, asked, answered, no_route};
ghost use Rattle.rules.specs.Rules.{route_of};
ghost use Rattle.rules.specs.Table.{table};
ghost use Rattle.table_layout.specs.Calls.{Performed};
ghost use Rattle.table_layout.specs.Cells.{decode};
ghost use Rattle.table_layout.specs.Facts.{Knows};
ghost use Rattle.table_originators.specs.Originators.{Holds, standing_at};
ghost use Rattle.call_best.specs.Best.{asked_as};

use rules::{Asked, Route};
use table_check::well_formed;
use table_layout::WINDOW;
use table_originators::{find_record, record_at};
use table_record::route_of;
use wire::refusals::Refusal;

// No route: all zeros.
pub fn no_route() -> Route
    ensures { result ≡ no_route }
{
    Route::default()
}

// The route of the record at place i.
pub fn route_at(cells: &[u64], i: usize) -> Route
    requires { Holds cells.now i }
    ensures { result ≡ route_of table (decode cells.now).config (some (standing_at cells.now i)) }
{
    route_of(record_at(cells, i), cells[WINDOW] as u32)
}

// The route to an originator, in a table that is well-formed.
pub fn route_to(cells: &[u64], originator: u32) -> Route
    requires { Knows cells.now }
    ensures { result ≡ route_of table (decode cells.now).config (lookup originator (decode cells.now).records) }
{
    match find_record(cells, originator).found {
        Ok(i) => route_at(cells, i),
        Err(_) => no_route(),
    }
}

// The answer, put together here alone.
fn asked_as(number: u64, route: Route) -> Asked
    ensures { result ≡ asked_as number route }
{
    Asked { number, route }
}

// The best link to an originator: refusal 1, or neighbour, interface, count and window, all 0 where no record is held.
pub fn best(cells: &[u64], originator: u32) -> Asked
    ensures { Performed cells.now (question originator) (answered (asked result)) cells.now }
{
    if !well_formed(cells) {
        return asked_as(Refusal::NotWellFormed.number(), no_route());
    }
    asked_as(0, route_to(cells, originator))
}
