// Messages of other nodes: counted or not, and passed on or not.
#![tactic(auto)]

ghost use Rattle.std.specs.Prelude.{◌≡◌, false, ◌≤◌, length};
ghost use Rattle.lists.specs.Keyed.{has_key};
ghost use Rattle.window.specs.Window.{is_stale};
ghost use Rattle.wire.specs.Layout.{header_size};
ghost use Rattle.wire.specs.Packet.{hna};
ghost use Rattle.table_layout.specs.Cells.{decode};
ghost use Rattle.table_layout.specs.Facts.{Knows};
ghost use Rattle.table_originators.specs.Originators.{Stands, Missing, LiesAt};
ghost use Rattle.call_receive_arrival.specs.Receiving.{after, Leaves, Taken, Ruled, Decides, foreign};

use call_best::{no_route, route_at};
use call_receive_arrival::{Arrival, conclude, end_stale, refused};
use count_entries::too_many;
use hear_message::Heard;
use rules::Received;
use table_layout::{CAPACITY, NEIGHBOURS_FROM, RECORDS, RECORDS_FROM, ROWS};
use table_neighbours::has_row;
use table_originators::{find_record, hear_at, make_record, position_at};
use window::{Position, is_stale};
use wire::HEADER_SIZE;
use wire::refusals::Refusal;

// The HNA octets of a packet.
fn hna_of(packet: &[u8]) -> &[u8]
    requires { header_size ≤ length packet.now }
    ensures { result.now ≡ hna packet.now }
{
    &packet[HEADER_SIZE..]
}

// Whether a link has a neighbour row.
fn is_bidirectional(cells: &[u64], link: u64) -> bool
    requires { Knows cells.now }
    ensures { result ≡ has_key link (decode cells.now).rows }
{
    has_row(
        &cells[NEIGHBOURS_FROM..RECORDS_FROM],
        cells[ROWS] as usize,
        link,
    )
}

// A message of an originator without a record, whose place would be i: it is no duplicate, and the record that it makes has its link alone.
fn first_heard(
    cells: &mut [u64],
    packet: &[u8],
    out: &mut [u8],
    m: Arrival,
    i: usize,
    bidirectional: bool,
) -> Received
    requires { Decides cells.old packet.now out.old m bidirectional × Missing cells.old m.originator i }
    ensures { Leaves cells.new out.new result (after cells.old packet.now out.old m) }
{
    if !bidirectional {
        return conclude(cells, packet, out, m, false, false, no_route());
    }
    if cells[CAPACITY] <= cells[RECORDS] {
        return refused(Refusal::OriginatorsFull.into());
    }
    let hna = hna_of(packet);
    if too_many(hna) {
        return refused(Refusal::EntriesFull.into());
    }
    let ogm = m.ogm;
    let route = make_record(cells, i, m.originator, ogm, hna);
    conclude(cells, packet, out, m, true, true, route)
}

// A message of an originator whose record stands at place i, to which its number isn't stale and lies so.
fn heard_timely(
    cells: &mut [u64],
    packet: &[u8],
    out: &mut [u8],
    m: Arrival,
    i: usize,
    bidirectional: bool,
    position: Position,
) -> Received
    requires { Decides cells.old packet.now out.old m bidirectional × Stands cells.old m.originator i × LiesAt cells.old i m.ogm.sequence position × (is_stale position ≡ false) }
    ensures { Leaves cells.new out.new result (after cells.old packet.now out.old m) }
{
    let ogm = m.ogm;
    match hear_at(cells, i, ogm, hna_of(packet), bidirectional, position) {
        Err(refusal) => refused(refusal.into()),
        Ok(Heard::Counted(a)) => {
            let best = a.best & a.fresh;
            let route = a.route;
            conclude(cells, packet, out, m, true, best, route)
        }
        Ok(Heard::Uncounted(a)) => {
            let best = bidirectional & (a.best & a.fresh);
            let route = a.route;
            conclude(cells, packet, out, m, bidirectional, best, route)
        }
    }
}

// A message of an originator whose record stands at place i. The sequence test is made once, here; a stale message ends before its link is looked for.
fn heard_again(cells: &mut [u64], packet: &[u8], out: &mut [u8], m: Arrival, i: usize) -> Received
    requires { Taken cells.old packet.now out.old m × Ruled cells.old packet.now out.old m foreign × Stands cells.old m.originator i }
    ensures { Leaves cells.new out.new result (after cells.old packet.now out.old m) }
{
    let position = position_at(cells, i, m.ogm.sequence);
    if is_stale(position) {
        let route = route_at(cells, i);
        return end_stale(cells, m.ogm.time, route);
    }
    let bidirectional = is_bidirectional(cells, m.ogm.link);
    heard_timely(cells, packet, out, m, i, bidirectional, position)
}

// A message that is neither from nor of this node: whether it is stale, whether it is counted, and whether passed on.
pub fn decide(cells: &mut [u64], packet: &[u8], out: &mut [u8], m: Arrival) -> Received
    requires { Taken cells.old packet.now out.old m × Ruled cells.old packet.now out.old m foreign }
    ensures { Leaves cells.new out.new result (after cells.old packet.now out.old m) }
{
    match find_record(cells, m.originator).found {
        Ok(i) => heard_again(cells, packet, out, m, i),
        Err(i) => {
            let bidirectional = is_bidirectional(cells, m.ogm.link);
            first_heard(cells, packet, out, m, i, bidirectional)
        }
    }
}
