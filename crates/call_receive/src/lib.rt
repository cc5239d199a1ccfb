// A received packet: its refusals, its verdict, the echo's neighbour row, the counted record, and the copy that is passed on.
#![tactic(auto)]

ghost use Rattle.rules.specs.Calls as C;
ghost use Rattle.rules.specs.Rules as R;
ghost use Rattle.rules.specs.Table.{table};
ghost use Rattle.table_layout.specs.Calls.{Performed};
ghost use Rattle.table_layout.specs.Facts.{Knows};
ghost use Rattle.call_receive_arrival.specs.Receiving.{args_of, after, Leaves, Taken, Ruled};

use call_receive_arrival::{Arrival, refused, verdict};
use call_receive_checks::{is_listed, read_arrival, receive_fault};
use call_receive_echo::own_message;
use call_receive_relay::decide;
use packet_codec::output::is_unidirectional;
use rules::Received;
use rules::verdicts::Verdict;
use table_check::well_formed;
use table_layout::{BROADCAST, OWN};
use wire::refusals::Refusal;

// A packet that none of the refusals 2 to 8 turns away.
fn judge(cells: &mut [u64], packet: &[u8], out: &mut [u8], m: Arrival) -> Received
    requires { Taken cells.old packet.now out.old m × Ruled cells.old packet.now out.old m (λ s a h. R.judge table s a h) }
    ensures { Leaves cells.new out.new result (after cells.old packet.now out.old m) }
{
    if is_listed(cells, OWN, m.sender) {
        return verdict(cells, Verdict::OwnSender as u64, m.ogm.time, m.originator);
    }
    if is_listed(cells, BROADCAST, m.sender) {
        return verdict(
            cells,
            Verdict::OwnBroadcast as u64,
            m.ogm.time,
            m.originator,
        );
    }
    if is_listed(cells, OWN, m.originator) {
        return own_message(cells, m);
    }
    if is_unidirectional(m.flags) {
        return verdict(
            cells,
            Verdict::Unidirectional as u64,
            m.ogm.time,
            m.originator,
        );
    }
    decide(cells, packet, out, m)
}

// A packet that comes to cells which are known to be a well-formed table's: refused by the rules, or judged. It leaves a well-formed table.
pub fn receive_checked(
    cells: &mut [u64],
    packet: &[u8],
    sender: u32,
    interface: u64,
    time: u64,
    out: &mut [u8],
) -> Received
    requires { Knows cells.old }
    ensures { Performed cells.old (C.receive (args_of packet.now sender interface time out.old)) (C.answered_writing (C.received result) out.new) cells.new × Knows cells.new }
{
    if let Err(refusal) = receive_fault(cells, packet, interface, time, out.len()) {
        return refused(refusal.into());
    }
    let m = read_arrival(packet, sender, interface, time);
    judge(cells, packet, out, m)
}

// Judges a received packet, counts and passes on by the rules, or refuses.
pub fn receive(
    cells: &mut [u64],
    packet: &[u8],
    sender: u32,
    interface: u64,
    time: u64,
    out: &mut [u8],
) -> Received
    ensures { Performed cells.old (C.receive (args_of packet.now sender interface time out.old)) (C.answered_writing (C.received result) out.new) cells.new }
{
    if !well_formed(cells) {
        return refused(Refusal::NotWellFormed.into());
    }
    receive_checked(cells, packet, sender, interface, time, out)
}
