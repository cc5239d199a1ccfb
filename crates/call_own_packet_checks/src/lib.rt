// An own packet on a well-formed table: what is refused of it, its number and its message.
#![tactic(auto)]

ghost use Rattle.std.specs.Prelude.{◌≡◌, List, ℕ, ◌+◌, ◌%◌, ◌<◌, length, get_or};
ghost use Rattle.std.proofs.Math.Option.{Option};
ghost use Rattle.lists.specs.Lists.{maybe};
ghost use Rattle.wire.specs.Refusals.{refusal_of};
ghost use Rattle.window.specs.Window.{numbers};
ghost use Rattle.rules.specs.declared.Interface.{Interface};
ghost use Rattle.rules.specs.Settings.{interface_cells};
ghost use Rattle.table_layout.specs.Layout.{used_at};
ghost use Rattle.table_layout.specs.Interfaces.{encode_interface};
ghost use Rattle.table_layout.specs.Cells.{decode};
ghost use Rattle.table_layout.specs.Facts.{Knows};
ghost use Rattle.call_own_packet_checks.specs.OwnPacket.{args, fault_in, header_from};

use packet_check::written_fault;
use rules::limits::{ADDRESSES, OCTETS, TTL_LEAST};
use table_layout::{FIRST, INTERFACE, INTERFACES_FROM, LAST, OWN, SENT, TIME, USED, VERSION};
use window::NUMBERS;
use wire::refusals::Refusal;
use wire::{HEADER_SIZE, Header};

// What is refused of an own packet, on a well-formed table, into an output of `room` octets.
pub fn own_fault(
    cells: &[u64],
    interface: u64,
    time: u64,
    ttl: u8,
    hna: &[u8],
    room: usize,
) -> Result<(), Refusal>
    requires { Knows cells.now }
    ensures { (gateway port : ℕ) (output : List ℕ) → length output ≡ room → refusal_of result ≡ fault_in cells.now (args interface time ttl gateway port hna.now output) }
{
    if cells[USED] <= interface {
        return Err(Refusal::NotInUse);
    }
    if time < cells[TIME] {
        return Err(Refusal::TimeBefore);
    }
    if room < HEADER_SIZE {
        return Err(Refusal::ShortOutput);
    }
    if room - HEADER_SIZE < hna.len() {
        return Err(Refusal::ShortOutput);
    }
    written_fault(hna)?;
    if ttl < TTL_LEAST {
        return Err(Refusal::TtlTooLow);
    }
    Ok(())
}

// The number of an interface's next packet: its first number, then one more each time.
pub fn next_number(row: &[u64]) -> u16
    requires { length row.now ≡ interface_cells }
    ensures { (x : Interface) (last : Option ℕ) → x.first < numbers → row.now ≡ encode_interface (x, last) → result ≡ maybe last x.first (λ n. (n + 1) % numbers) }
{
    if row[SENT] == 1 {
        ((row[LAST] % NUMBERS + 1) % NUMBERS) as u16
    } else {
        (row[FIRST] % NUMBERS) as u16
    }
}

// The message of an interface's own packet.
pub fn own_header(cells: &[u64], i: usize, number: u16, ttl: u8, gateway: u8, port: u16) -> Header
    requires { Knows cells.now × (i < get_or cells.now used_at 0) }
    ensures { result ≡ header_from (decode cells.now).config i number ttl gateway port }
{
    Header {
        version: (cells[VERSION] % OCTETS) as u8,
        flags: 0,
        ttl,
        gateway,
        sequence: number,
        port,
        originator: (cells[INTERFACES_FROM + i * INTERFACE + OWN] % ADDRESSES) as u32,
    }
}
