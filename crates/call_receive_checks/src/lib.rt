// What is asked of an incoming packet before it is judged: its refusals, its message, and which addresses are this node's.
#![tactic(auto)]

ghost use Rattle.std.specs.Prelude.{◌≡◌, true, List, map, ℕ, ◌≤◌, ◌<◌, length};
ghost use Rattle.lists.specs.Lists.{elem};
ghost use Rattle.wire.specs.Layout.{header_size};
ghost use Rattle.wire.specs.Refusals.{refusal_of};
ghost use Rattle.rules.specs.declared.Interface.{Interface};
ghost use Rattle.rules.specs.Settings.{interface_most, interface_cells};
ghost use Rattle.rules.specs.Calls as C;
ghost use Rattle.rules.specs.Rules as R;
ghost use Rattle.rules.specs.WellFormed.{typed};
ghost use Rattle.table_layout.specs.Cells.{decode};
ghost use Rattle.table_layout.specs.Facts.{Knows};
ghost use Rattle.call_receive_arrival.specs.Receiving.{args_of, arrival_of, IsFieldAt};

use call_receive_arrival::Arrival;
use packet_check::packet_fault;
use packet_codec::message::read;
use rules::Ogm;
use rules::limits::INTERFACES_MOST;
use table_layout::{OWN_0, OWN_1, OWN_2, OWN_3, TIME, USED, VERSION};
use wire::refusals::Refusal;

// The message that a packet begins with, as it came from a sender.
pub fn read_arrival(packet: &[u8], sender: u32, interface: u64, time: u64) -> Arrival
    requires { (header_size ≤ length packet.now) × (interface < interface_most) }
    ensures { (result ≡ arrival_of packet.now sender interface time) × ((o : List ℕ) → typed (C.receive (args_of packet.now sender interface time o)) ≡ true) }
{
    let h = read(packet);
    let ogm = Ogm {
        link: sender as u64 * INTERFACES_MOST + interface,
        sequence: h.sequence,
        ttl: h.ttl,
        time,
    };
    Arrival {
        sender,
        interface,
        flags: h.flags,
        originator: h.originator,
        ogm,
    }
}

// What is refused before the packet is judged, with an output of `room` octets.
pub fn receive_fault(
    cells: &[u64],
    packet: &[u8],
    interface: u64,
    time: u64,
    room: usize,
) -> Result<(), Refusal>
    requires { Knows cells.now }
    ensures { (a : ℕ) (o : List ℕ) → length o ≡ room → refusal_of result ≡ R.receive_fault (decode cells.now).config (decode cells.now).time (args_of packet.now a interface time o) }
{
    if cells[USED] <= interface {
        return Err(Refusal::NotInUse);
    }
    if time < cells[TIME] {
        return Err(Refusal::TimeBefore);
    }
    if room < packet.len() {
        return Err(Refusal::ShortOutput);
    }
    packet_fault(packet, cells[VERSION])
}

// Whether an address stands at a place of the rows of the interfaces in use, the place of their field f.
pub fn is_listed(cells: &[u64], place: usize, address: u32) -> bool
    requires { Knows cells.now × (place < interface_cells) }
    ensures { (f : Interface → ℕ) → IsFieldAt f place → result ≡ elem address (map f (decode cells.now).config.interfaces) }
{
    let a = address as u64;
    let used = cells[USED];
    (a == cells[OWN_0 + place])
        | (((1 < used) & (a == cells[OWN_1 + place]))
            | (((2 < used) & (a == cells[OWN_2 + place]))
                | ((3 < used) & (a == cells[OWN_3 + place]))))
}
