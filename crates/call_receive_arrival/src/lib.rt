// A received message, and how its packet ends: refused, or with a verdict and the route of its originator.
#![tactic(auto)]

ghost use Rattle.std.specs.Prelude.{◌≡◌, ◌<◌, length};
ghost use Rattle.rules.specs.Calls.{received_as};
ghost use Rattle.rules.specs.Rules as R;
ghost use Rattle.rules.specs.Table.{table};
ghost use Rattle.table_layout.specs.Layout.{time_at};
ghost use Rattle.table_layout.specs.Cells.{encode};
ghost use Rattle.call_receive_arrival.specs.Receiving.{refused_by, verdict_of, Ends, Fits, EndsStale, Concluded};

use call_best::{no_route, route_to};
use packet_codec::output::{flags_elsewhere, flags_here, pass_on};
use rules::limits::TTL_LEAST;
use rules::verdicts::Verdict;
use rules::{Ogm, Received, Route};
use table_layout::TIME;
use wire::Fault;

// A received message: who sent it, by which interface it came, what its packet says, and what a record is told of it.
#[derive(Clone, Copy)]
pub struct Arrival {
    pub sender: u32,
    pub interface: u64,
    pub flags: u8,
    pub originator: u32,
    pub ogm: Ogm,
}

// The answer, put together here alone.
fn received_as(number: u64, place: u64, flags: u8, route: Route) -> Received
    ensures { result ≡ received_as number place flags route }
{
    Received {
        number,
        place,
        flags,
        route,
    }
}

// The answer to a refused packet. It takes any number and place, which a `Refusal` would not.
pub fn refused(fault: Fault) -> Received
    ensures { result ≡ refused_by fault }
{
    received_as(fault.number, fault.place, 0, no_route())
}

// Ends with a verdict that writes nothing, given as its number, whichever it is: the time is set, and the route is the originator's in the cells as the call leaves them.
pub fn verdict(cells: &mut [u64], number: u64, time: u64, originator: u32) -> Received
    requires { Ends cells.old time }
    ensures { (e : Ends cells.old time) → (result ≡ verdict_of e.state number originator) × (cells.new ≡ encode (R.with_time table e.state time)) }
{
    cells[TIME] = time;
    received_as(number, 0, 0, route_to(cells, originator))
}

// Ends with 27: the time is set. The originator's record stays as it is, and with it the route.
pub fn end_stale(cells: &mut [u64], at: u64, route: Route) -> Received
    requires { time_at < length cells.old }
    ensures { EndsStale cells.old at route cells.new result }
{
    cells[TIME] = at;
    received_as(Verdict::Stale as u64, 0, 0, route)
}

// Ends with 26 or 25: the time is set. `best` says that the link is bidirectional and best, and the message fresh.
pub fn conclude(
    cells: &mut [u64],
    packet: &[u8],
    out: &mut [u8],
    m: Arrival,
    bidirectional: bool,
    best: bool,
    route: Route,
) -> Received
    requires { Fits packet.now out.old m × (time_at < length cells.old) }
    ensures { Concluded cells.old packet.now out.old m bidirectional best route cells.new out.new result }
{
    cells[TIME] = m.ogm.time;
    let direct = m.sender == m.originator;
    if !((TTL_LEAST <= m.ogm.ttl) & (direct | best)) {
        return received_as(Verdict::Kept as u64, 0, 0, route);
    }
    pass_on(packet, out, flags_here(direct, bidirectional, m.flags));
    received_as(Verdict::PassedOn as u64, 0, flags_elsewhere(m.flags), route)
}
