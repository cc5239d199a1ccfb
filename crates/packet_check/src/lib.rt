// The packet check: refusals 5, 6, 7, 8 and 16, in this order, for any octets.
#![tactic(auto)]

ghost use Rattle.std.specs.Prelude.{◌≡◌, Bool, true, List, ℕ, not, ◌||◌, ◌≤◌, ◌<◌, eqb};
ghost use Rattle.std.proofs.Math.Option.{none};
ghost use Rattle.wire.specs.Layout.{mask_most};
ghost use Rattle.wire.specs.Check as C;
ghost use Rattle.wire.specs.Refusals.{place_of, refusal_of};
ghost use Rattle.packet_check.specs.Head.{HeadFault};

use packet_codec::entries::{entry_count, mask_at, network_at};
use wire::refusals::Refusal;
use wire::{ENTRY_SIZE, Fault, HEADER_SIZE, MASK_MOST, VERSION_AT};

// The most octets of a packet.
const PACKET_MOST: usize = 1472;

// How many addresses there are, and the bits of the word in which one is shifted.
const ADDRESSES: u64 = 4294967296;

const WORD_BITS: u8 = 64;

// Whether the mask of the entry at place k is above 32.
fn is_bad(hna: &[u8], k: usize) -> bool
    requires { k < C.entries hna.now }
    ensures { result ≡ C.bad_mask hna.now k }
{
    mask_at(hna, k) > MASK_MOST
}

// Whether an address has a host bit that is not zero. Shifted up by the mask, which is right for one of at most 32, the host bits stay in the lower half
// of the word, and no other bits are there.
fn has_bits_below(network: u32, mask: u8) -> bool
    ensures { mask ≤ mask_most → result ≡ not (eqb (C.host_bits network mask) 0) }
{
    ((network as u64) << (mask % WORD_BITS)) % ADDRESSES != 0
}

// Whether the entry at place k has one.
fn has_host_bits(hna: &[u8], k: usize) -> bool
    requires { k < C.entries hna.now }
    ensures { result ≡ C.host_bits_set hna.now k }
{
    !is_bad(hna, k) & has_bits_below(network_at(hna, k), mask_at(hna, k))
}

// Whether the entry at place k breaks either rule.
fn is_faulty(hna: &[u8], k: usize) -> bool
    requires { k < C.entries hna.now }
    ensures { result ≡ (C.bad_mask hna.now k || C.host_bits_set hna.now k) }
{
    is_bad(hna, k) | has_bits_below(network_at(hna, k), mask_at(hna, k))
}

// Whether HNA octets are whole entries without fault. Nearly all are, and this looks at each entry once; where one has a fault, which it is and where is
// looked for by itself. A loop that is left, and no `all` over the entries: with that the check of a large packet takes a seventh longer.
fn is_clean(hna: &[u8]) -> bool
    ensures { result ≡ true → none ≡ C.hna_fault hna.now }
{
    let entries = entry_count(hna);
    let mut clean = true;
    for k in 0..entries {
        if is_faulty(hna, k) {
            clean = false;
            break;
        }
    }
    clean & (ENTRY_SIZE * entries == hna.len())
}

// The place of the first entry that breaks a rule.
fn first_breaking<F: Fn(usize) -> bool>(hna: &[u8], breaks: F) -> Option<usize>
    requires { (k : ℕ) → k < C.entries hna.now → F.pre breaks k }
    ensures { (rule : List ℕ → ℕ → Bool) → ((k : ℕ) (b : Bool) → k < C.entries hna.now → F.post breaks k b → b ≡ rule hna.now k) → place_of (C.first_breaking rule hna.now) ≡ result }
{
    let mut first = None;
    for k in 0..entry_count(hna) {
        if breaks(k) {
            first = Some(k);
            break;
        }
    }
    first
}

// What is refused of HNA octets, received or to be written. A mask above 32 goes first, wherever it stands.
fn hna_fault(hna: &[u8]) -> Result<(), Refusal>
    ensures { refusal_of result ≡ C.hna_fault hna.now }
{
    if hna.len() % ENTRY_SIZE != 0 {
        return Err(Refusal::RaggedEntries);
    }
    if let Some(k) = first_breaking(hna, |k| is_bad(hna, k)) {
        return Err(Refusal::WrongMask(k));
    }
    if let Some(k) = first_breaking(hna, |k| has_host_bits(hna, k)) {
        return Err(Refusal::HostBitsSet(k));
    }
    Ok(())
}

// What is refused of a packet's size and version: 5 or 6.
fn head_fault(packet: &[u8], version: u64) -> Result<(), Refusal>
    ensures { HeadFault packet.now version result }
{
    let n = packet.len();
    if n < HEADER_SIZE {
        return Err(Refusal::WrongSize);
    }
    if n > PACKET_MOST {
        return Err(Refusal::WrongSize);
    }
    if u64::from(packet[VERSION_AT]) != version {
        return Err(Refusal::WrongVersion);
    }
    Ok(())
}

// What is refused of a received packet.
pub fn packet_fault(packet: &[u8], version: u64) -> Result<(), Refusal>
    ensures { refusal_of result ≡ C.packet_fault version packet.now }
{
    head_fault(packet, version)?;
    let hna = &packet[HEADER_SIZE..];
    if is_clean(hna) {
        return Ok(());
    }
    hna_fault(hna)
}

// What is refused of the packet that would have these HNA octets.
pub fn written_fault(hna: &[u8]) -> Result<(), Refusal>
    ensures { refusal_of result ≡ C.written_fault hna.now }
{
    if hna.len() > PACKET_MOST - HEADER_SIZE {
        return Err(Refusal::WrongSize);
    }
    if is_clean(hna) {
        return Ok(());
    }
    hna_fault(hna)
}

// The check's answer as one number: 0, or the refusal and 256 times its place.
pub fn packet_check(packet: &[u8], version: u64) -> u64
    ensures { result ≡ C.packet_check version packet.now }
{
    match packet_fault(packet, version) {
        Ok(()) => 0,
        Err(refusal) => {
            let fault = Fault::from(refusal);
            fault.number + 256 * fault.place
        }
    }
}
