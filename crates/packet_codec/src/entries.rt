// HNA entries: network address and mask, and both as one number, the network address before the mask as an entry's five octets have them.
ghost use Rattle.std.specs.Prelude.{◌≡◌, ◌+◌, ◌*◌, ◌<◌};
ghost use Rattle.wire.specs.Check.{entries, network, mask};
ghost use Rattle.wire.specs.Entries.{entry_at};

use crate::message::read4;
use wire::{ENTRY_SIZE, MASK_AT};

// How many values an octet has.
const OCTETS: u64 = 256;

fn joined(network: u32, mask: u8) -> u64
    ensures { result ≡ network * 256 + mask }
{
    network as u64 * OCTETS + mask as u64
}

// How many entries there are.
pub fn entry_count(hna: &[u8]) -> usize
    ensures { result ≡ entries hna.now }
{
    hna.len() / ENTRY_SIZE
}

// The network address of the entry at place k.
pub fn network_at(hna: &[u8], k: usize) -> u32
    requires { k < entries hna.now }
    ensures { result ≡ network hna.now k }
{
    read4(hna, ENTRY_SIZE * k)
}

// Its mask.
pub fn mask_at(hna: &[u8], k: usize) -> u8
    requires { k < entries hna.now }
    ensures { result ≡ mask hna.now k }
{
    hna[ENTRY_SIZE * k + MASK_AT]
}

// The entry at place k.
#[tactic(auto, unfolding(wire::specs::Entries::entry_at, wire::specs::Entries::entry_of))]
pub fn entry_at(hna: &[u8], k: usize) -> u64
    requires { k < entries hna.now }
    ensures { result ≡ entry_at hna.now k }
{
    joined(network_at(hna, k), mask_at(hna, k))
}
