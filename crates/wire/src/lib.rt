// The octets on the air: what a packet says, and what is refused of it.
#![tactic(auto)]

pub mod refusals;

ghost use Rattle.std.specs.Prelude.{◌≡◌};
ghost use Rattle.wire.specs.Check.{numbered, placed};

// The originator message with which a packet begins.
#[repr(C)]
#[derive(Clone, Copy)]
pub struct Header {
    pub version: u8,
    pub flags: u8,
    pub ttl: u8,
    pub gateway: u8,
    pub sequence: u16,
    pub port: u16,
    pub originator: u32,
}

// A refusal as a call of batman.h answers it: its number, and the place that 8 and 16 carry, else 0. Both are 0 where nothing is refused.
#[derive(Clone, Copy)]
pub struct Fault {
    pub number: u64,
    pub place: u64,
}

// The octets of a message, and where its version stands.
pub const HEADER_SIZE: usize = 12;

pub const VERSION_AT: usize = 0;

// The octets of an HNA entry, where its mask stands, and the longest that is allowed.
pub const ENTRY_SIZE: usize = 5;

pub const MASK_AT: usize = 4;

pub const MASK_MOST: u8 = 32;

// A refusal without a place, or with number 0 none.
pub fn refusal(number: u64) -> Fault
    ensures { result ≡ numbered number }
{
    Fault { number, place: 0 }
}

// A refusal that carries the place of an entry.
pub fn refusal_at(number: u64, k: usize) -> Fault
    ensures { result ≡ placed number k }
{
    Fault {
        number,
        place: k as u64,
    }
}
