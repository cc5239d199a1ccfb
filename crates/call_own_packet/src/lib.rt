// The own packet: its octets, the table once it is sent, and the neighbour rows that are then too far behind.
#![tactic(auto)]

ghost use Rattle.std.specs.Prelude.{◌≡◌, ◌+◌, ◌≤◌, ◌<◌, length, set, get_or};
ghost use Rattle.lists.specs.Lists.{keep};
ghost use Rattle.lists.specs.Keyed.{put};
ghost use Rattle.wire.specs.Layout.{header_size};
ghost use Rattle.wire.specs.Refusals.{fault_by};
ghost use Rattle.rules.specs.Settings.{interface_cells};
ghost use Rattle.rules.specs.Table.{TableState};
ghost use Rattle.table_layout.specs.Layout.{used_at, sent_at, last_at};
ghost use Rattle.table_layout.specs.Cells.{encode, decode};
ghost use Rattle.table_layout.specs.Facts.{Knows};
ghost use Rattle.rules.specs.Calls.{own, written, written_as, answered_writing};
ghost use Rattle.table_layout.specs.Calls.{Performed};
ghost use Rattle.table_changes.specs.Changes.{with_time, with_sends, with_rows};
ghost use Rattle.table_changes.specs.Left.{Left};
ghost use Rattle.table_neighbours.specs.Neighbours.{stays_after};
ghost use Rattle.call_own_packet_checks.specs.OwnPacket.{args};
ghost use Rattle.call_own_packet.specs.Sending.{RowsPart, sent_from};

use call_own_packet_checks::{next_number, own_fault, own_header};
use packet_codec::output::write_packet;
use rules::Written;
use table_check::well_formed;
use table_layout::{
    INTERFACE, INTERFACES_FROM, LAST, NEIGHBOURS_FROM, RECORDS_FROM, ROWS, SENT, TIME, TIMEOUT,
};
use table_neighbours::drop_old;
use wire::Fault;
use wire::refusals::Refusal;

// An interface has sent a number.
fn row_sent(row: &mut [u64], number: u16)
    requires { length row.old ≡ interface_cells }
    ensures { row.new ≡ set (set row.old sent_at 1) last_at number }
{
    row[SENT] = 1;
    row[LAST] = number as u64;
}

fn mark_sent(cells: &mut [u64], i: usize, number: u16)
    requires { Knows cells.old × (i < get_or cells.old used_at 0) }
    ensures { cells.new ≡ encode (with_sends (put i number (decode cells.old).sends) (decode cells.old)) }
{
    let at = INTERFACES_FROM + i * INTERFACE;
    let end = at + INTERFACE;
    row_sent(&mut cells[at..end], number);
}

// Drops the interface's rows that are too far behind its number, and sets the time.
fn drop_rows(cells: &mut [u64], i: u64, number: u16, time: u64)
    requires { RowsPart cells.old }
    ensures { (s : TableState) → cells.old ≡ encode s → cells.new ≡ encode (with_time time (with_rows (keep (stays_after i number s.config.settings.timeout) s.rows) s)) }
{
    let n = cells[ROWS] as usize;
    let timeout = cells[TIMEOUT];
    let kept = drop_old(
        &mut cells[NEIGHBOURS_FROM..RECORDS_FROM],
        n,
        i,
        number,
        timeout,
    );
    cells[ROWS] = kept as u64;
    cells[TIME] = time;
}

// The answer, put together here alone.
fn written_as(number: u64, place: u64, length: u64, sequence: u16) -> Written
    ensures { result ≡ written_as number place length sequence }
{
    Written {
        number,
        place,
        length,
        sequence,
    }
}

// The answer where nothing is sent.
fn refused(refusal: Refusal) -> Written
    ensures { result ≡ written_as (fault_by refusal).number (fault_by refusal).place 0 0 }
{
    let fault = Fault::from(refusal);
    written_as(fault.number, fault.place, 0, 0)
}

// Writes the packet, and notes in the table that it was sent.
fn send_packet(
    cells: &mut [u64],
    i: usize,
    time: u64,
    ttl: u8,
    gateway: u8,
    port: u16,
    hna: &[u8],
    out: &mut [u8],
) -> Written
    requires { Knows cells.old × (i < get_or cells.old used_at 0) × (header_size + length hna.now ≤ length out.old) }
    ensures { Left (sent_from cells.old (args i time ttl gateway port hna.now out.old)) (answered_writing (written result) out.new) cells.new }
{
    let at = INTERFACES_FROM + i * INTERFACE;
    let end = at + INTERFACE;
    let number = next_number(&cells[at..end]);
    let h = own_header(cells, i, number, ttl, gateway, port);
    let length = write_packet(out, h, hna);
    mark_sent(cells, i, number);
    drop_rows(cells, i as u64, number, time);
    written_as(0, 0, length as u64, number)
}

// Writes the next own packet of an interface at the start of the output, or refuses.
pub fn own_packet(
    cells: &mut [u64],
    interface: u64,
    time: u64,
    ttl: u8,
    gateway: u8,
    port: u16,
    hna: &[u8],
    out: &mut [u8],
) -> Written
    ensures { Performed cells.old (own (args interface time ttl gateway port hna.now out.old)) (answered_writing (written result) out.new) cells.new }
{
    if !well_formed(cells) {
        return refused(Refusal::NotWellFormed);
    }
    if let Err(refusal) = own_fault(cells, interface, time, ttl, hna, out.len()) {
        return refused(refusal);
    }
    send_packet(
        cells,
        interface as usize,
        time,
        ttl,
        gateway,
        port,
        hna,
        out,
    )
}
