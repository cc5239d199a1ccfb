// A message's fields and its octets, high octet first.
ghost use Rattle.std.specs.Prelude.{◌≡◌, ◌+◌, ◌≤◌, ◌<◌, length};
ghost use Rattle.wire.specs.Layout.{header_size};
ghost use Rattle.wire.specs.Packet as P;

use wire::{Header, VERSION_AT};

// Where each field after the version begins.
pub const FLAGS_AT: usize = 1;

pub const TTL_AT: usize = 2;

const GATEWAY_AT: usize = 3;

const SEQUENCE_AT: usize = 4;

const PORT_AT: usize = 6;

const ORIGINATOR_AT: usize = 8;

fn read2(packet: &[u8], at: usize) -> u16
    requires { at + 1 < length packet.now }
    ensures { result ≡ P.read2 packet.now at }
{
    u16::from_be_bytes([packet[at], packet[at + 1]])
}

// The number of the four octets at a place, which LLVM reads as one word.
pub fn read4(packet: &[u8], at: usize) -> u32
    requires { at + 3 < length packet.now }
    ensures { result ≡ P.read4 packet.now at }
{
    u32::from_be_bytes([packet[at], packet[at + 1], packet[at + 2], packet[at + 3]])
}

// The message that a packet begins with.
#[tactic(auto, unfolding(wire::specs::Packet::header))]
pub fn read(packet: &[u8]) -> Header
    requires { header_size ≤ length packet.now }
    ensures { result ≡ P.header packet.now }
{
    Header {
        version: packet[VERSION_AT],
        flags: packet[FLAGS_AT],
        ttl: packet[TTL_AT],
        gateway: packet[GATEWAY_AT],
        sequence: read2(packet, SEQUENCE_AT),
        port: read2(packet, PORT_AT),
        originator: read4(packet, ORIGINATOR_AT),
    }
}

// The octets of a message.
pub fn octets(h: Header) -> [u8; 12]
    ensures { result ≡ P.header_octets h }
{
    let sequence = h.sequence.to_be_bytes();
    let port = h.port.to_be_bytes();
    let originator = h.originator.to_be_bytes();
    [
        h.version,
        h.flags,
        h.ttl,
        h.gateway,
        sequence[0],
        sequence[1],
        port[0],
        port[1],
        originator[0],
        originator[1],
        originator[2],
        originator[3],
    ]
}
