// Messages of this node that come back to it.
#![tactic(auto)]

ghost use Rattle.std.specs.Prelude.{◌≡◌, List, ℕ, ◌<◌, get_or};
ghost use Rattle.wire.specs.Packet.{header};
ghost use Rattle.rules.specs.Rules as R;
ghost use Rattle.rules.specs.Table.{table};
ghost use Rattle.table_layout.specs.Layout.{used_at};
ghost use Rattle.table_layout.specs.Cells.{decode};
ghost use Rattle.table_layout.specs.Facts.{Knows};
ghost use Rattle.call_receive_arrival.specs.Receiving.{call_of, Leaves, Fits, Taken, ComesTo, Echoes, own_message};

use call_receive_arrival::{Arrival, refused, verdict};
use packet_codec::output::is_direct;
use rules::Received;
use rules::verdicts::Verdict;
use table_layout::{
    INTERFACE, INTERFACES_FROM, LAST, NEIGHBOURS_FROM, OWN, RECORDS_FROM, ROWS, SENT,
};
use table_neighbours::record_echo;
use wire::refusals::Refusal;

// Whether a message of an own originator is the echo of the receiving interface's last packet, from next to it.
fn is_echo(cells: &[u64], m: Arrival) -> bool
    requires { Knows cells.now × (m.interface < get_or cells.now used_at 0) }
    ensures { (p o : List ℕ) → Fits p o m → result ≡ R.is_echo (decode cells.now).config (decode cells.now).sends (call_of p o m) (header p) }
{
    let at = INTERFACES_FROM + m.interface as usize * INTERFACE;
    is_direct(m.flags)
        & ((m.originator as u64 == cells[at + OWN])
            & ((cells[at + SENT] == 1) & (m.ogm.sequence as u64 == cells[at + LAST])))
}

// The neighbour row of an echo's link takes its number.
fn take_echo(cells: &mut [u64], m: Arrival) -> Received
    requires { ComesTo cells.old m (λ s a h. R.take_echo table s a h) × Echoes cells.old m }
    ensures { (p o : List ℕ) → Taken cells.old p o m → Leaves cells.new o result (R.take_echo table (decode cells.old) (call_of p o m) (header p)) }
{
    let n = cells[ROWS] as usize;
    let rows = &mut cells[NEIGHBOURS_FROM..RECORDS_FROM];
    let Some(held) = record_echo(rows, n, m.ogm.link, m.ogm.sequence as u64) else {
        return refused(Refusal::NeighboursFull.into());
    };
    cells[ROWS] = held as u64;
    verdict(cells, Verdict::Echo as u64, m.ogm.time, m.originator)
}

// A message whose originator is an own address.
pub fn own_message(cells: &mut [u64], m: Arrival) -> Received
    requires { ComesTo cells.old m own_message }
    ensures { (p o : List ℕ) → Taken cells.old p o m → Leaves cells.new o result (own_message (decode cells.old) (call_of p o m) (header p)) }
{
    if !is_echo(cells, m) {
        return verdict(
            cells,
            Verdict::OwnOriginator as u64,
            m.ogm.time,
            m.originator,
        );
    }
    take_echo(cells, m)
}
