// Packets written at the start of a lent output; the rest of it is untouched.
ghost use Rattle.std.specs.Prelude.{◌≡◌, ◌+◌, ◌≤◌, ◌<◌, length};
ghost use Rattle.lists.specs.Lists.{written_to};
ghost use Rattle.wire.specs.Layout.{header_size, ttl_at};
ghost use Rattle.wire.specs.Packet as P;
ghost use Rattle.wire.specs.PassOn as O;

use crate::message::{FLAGS_AT, TTL_AT, octets};
use wire::{HEADER_SIZE, Header};

// The two named bits of the flags octet, and how many values the unnamed ones have.
const UNIDIRECTIONAL: u8 = 128;

const DIRECT: u8 = 64;

const UNNAMED: u8 = 64;

// Writes these octets at the start of the output, and answers how many they are.
#[tactic(auto, unfolding(lists::specs::Lists::written_to))]
fn write_octets(from: &[u8], out: &mut [u8]) -> usize
    requires { length from.now ≤ length out.old }
    ensures count { result ≡ length from.now }
    ensures after { out.new ≡ written_to from.now out.old }
{
    out[..from.len()].copy_from_slice(from);
    from.len()
}

// Writes the packet with this message and these HNA octets, and answers its length.
pub fn write_packet(out: &mut [u8], h: Header, hna: &[u8]) -> usize
    requires { header_size + length hna.now ≤ length out.old }
    ensures { (result ≡ header_size + length hna.now) × (out.new ≡ written_to (P.packet_of h hna.now) out.old) }
{
    let head = octets(h);
    write_octets(&head, out);
    HEADER_SIZE + write_octets(hna, &mut out[HEADER_SIZE..])
}

#[tactic(auto, unfolding(wire::specs::Packet::is_u))]
// One function a bit: with the bit as an argument a call would not say which it asks for.
pub fn is_unidirectional(flags: u8) -> bool
    ensures { result ≡ P.is_u flags }
{
    flags / UNIDIRECTIONAL % 2 == 1
}

#[tactic(auto, unfolding(wire::specs::Packet::is_d))]
pub fn is_direct(flags: u8) -> bool
    ensures { result ≡ P.is_d flags }
{
    flags / DIRECT % 2 == 1
}

// The flags octet of the copy for the receiving interface.
#[tactic(auto, unfolding(wire::specs::PassOn::flags_here, wire::specs::Packet::unnamed))]
pub fn flags_here(direct: bool, bidirectional: bool, flags: u8) -> u8
    ensures { result ≡ O.flags_here direct bidirectional flags }
{
    u8::from(!bidirectional) * UNIDIRECTIONAL + u8::from(direct) * DIRECT + flags % UNNAMED
}

// The flags octet of the copies for the other interfaces.
#[tactic(auto, unfolding(wire::specs::PassOn::flags_elsewhere, wire::specs::Packet::unnamed))]
pub fn flags_elsewhere(flags: u8) -> u8
    ensures { result ≡ O.flags_elsewhere flags }
{
    flags % UNNAMED
}

// Writes the passed-on copy of a packet with these flags.
pub fn pass_on(packet: &[u8], out: &mut [u8], flags: u8)
    requires { (header_size ≤ length packet.now) × (length packet.now ≤ length out.old) × (0 < P.octet packet.now ttl_at) }
    ensures { out.new ≡ written_to (O.passed_on flags packet.now) out.old }
{
    write_octets(packet, out);
    out[FLAGS_AT] = flags;
    out[TTL_AT] = packet[TTL_AT] - 1;
}
