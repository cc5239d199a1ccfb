// The calls of batman.h, for programs in Rattle; crate batman_c exports each to C under the same name, since an export is its own function. None has a `requires`.
#![tactic(auto)]

ghost use Rattle.std.specs.Prelude.{◌≡◌};
ghost use Rattle.wire.specs.Check.{packet_check};
ghost use Rattle.rules.specs.Calls as C;
ghost use Rattle.table_layout.specs.Calls.{Promised};
ghost use Rattle.call_make.specs.Make.{make_args, needed_for};
ghost use Rattle.call_receive_arrival.specs.Receiving.{args_of};
ghost use Rattle.call_burst.specs.Bursts.{burst_args};
ghost use Rattle.call_own_packet_checks.specs.OwnPacket.{args};

use rules::{
    Asked, Burst, Interface, LinkRow, Listed, Located, Received, Settings, Swept, Written,
};

// The interface rows as C passes them: an array can't be a parameter there.
#[repr(C)]
#[derive(Clone, Copy)]
pub struct Interfaces {
    pub row: [Interface; 4],
    pub used: u64,
}

// The packet check: 0 for a packet without fault, else the refusal number, and for refusal 8 that number plus 256 times the place.
pub fn batman_packet_check(packet: &[u8], version: u64) -> u64
    ensures { result ≡ packet_check version packet.now }
{
    packet_check::packet_check(packet, version)
}

// How many cells a capacity needs; 0 for one that is not allowed.
pub fn batman_cells_needed(capacity: u64) -> u64
    ensures { result ≡ needed_for capacity }
{
    call_make::cells_needed(capacity)
}

// Makes a fresh table in all the cells given, or answers 12.
pub fn batman_make(cells: &mut [u64], settings: Settings, interfaces: Interfaces) -> u64
    ensures { Promised cells.old (C.make (make_args settings interfaces.row interfaces.used)) (C.answered (C.made result)) cells.new }
{
    let rows = interfaces.row;
    call_make::make(cells, settings, rows, interfaces.used)
}

// Judges a received packet: what it is counted as, whether it is passed on, and the route to its originator.
pub fn batman_receive(
    cells: &mut [u64],
    packet: &[u8],
    sender: u32,
    interface: u64,
    time: u64,
    out: &mut [u8],
) -> Received
    ensures { Promised cells.old (C.receive (args_of packet.now sender interface time out.old)) (C.answered_writing (C.received result) out.new) cells.new }
{
    call_receive::receive(cells, packet, sender, interface, time, out)
}

// Judges the packets of a burst one after the other, as `batman_receive` does, after one check of the table.
pub fn batman_receive_burst(
    cells: &mut [u64],
    octets: &[u8],
    lengths: &[u64],
    senders: &[u32],
    interfaces: &[u64],
    time: u64,
    out: &mut [u8],
    answers: &mut [Received],
) -> Burst
    ensures { Promised cells.old (C.burst (burst_args octets.now lengths.now senders.now interfaces.now time out.old answers.old)) (C.answered_each (C.burst_received result) out.new answers.new) cells.new }
{
    let room = answers.len();
    match call_burst::burst(cells, octets, lengths, senders, interfaces, time, out, room) {
        Ok(got) => {
            call_burst_rows::fill_answers(answers, got);
            Burst {
                number: 0,
                written: got.written,
            }
        }
        Err(refusal) => Burst {
            number: refusal.number(),
            written: 0,
        },
    }
}

// Writes an interface's next own packet at the start of the output.
pub fn batman_own_packet(
    cells: &mut [u64],
    interface: u64,
    time: u64,
    ttl: u8,
    gateway: u8,
    port: u16,
    hna: &[u8],
    out: &mut [u8],
) -> Written
    ensures { Promised cells.old (C.own (args interface time ttl gateway port hna.now out.old)) (C.answered_writing (C.written result) out.new) cells.new }
{
    call_own_packet::own_packet(cells, interface, time, ttl, gateway, port, hna, out)
}

// Removes the records whose time is more than the purge timeout ago.
pub fn batman_sweep(cells: &mut [u64], time: u64) -> Swept
    ensures { Promised cells.old (C.sweep time) (C.answered (C.swept result)) cells.new }
{
    call_sweep::sweep(cells, time)
}

// The best link to an originator.
pub fn batman_best(cells: &[u64], originator: u32) -> Asked
    ensures { Promised cells.now (C.question originator) (C.answered (C.asked result)) cells.now }
{
    call_best::best(cells, originator)
}

// Which originator's entry covers an address: the longest mask, then the smaller originator address, then the earlier entry.
pub fn batman_lookup(cells: &[u64], address: u32) -> Located
    ensures { Promised cells.now (C.locate address) (C.answered (C.located result)) cells.now }
{
    call_lookup::lookup(cells, address)
}

// Fills the caller's rows, one for each link held to an originator, in table order. Further rows stay as they are.
pub fn batman_list(cells: &[u64], originator: u32, rows: &mut [LinkRow]) -> Listed
    ensures { Promised cells.now (C.list originator rows.old) (C.answered_filling (C.listed result) rows.new) cells.now }
{
    match call_list::links_of(cells, originator, rows.len()) {
        Ok(got) => {
            call_list::fill_rows(rows, got);
            Listed {
                number: 0,
                filled: got.n as u64,
            }
        }
        Err(refusal) => Listed {
            number: refusal.number(),
            filled: 0,
        },
    }
}
