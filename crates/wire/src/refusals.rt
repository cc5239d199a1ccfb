// RULES 8.2: the refusals, and their numbers, which include/batman.h has for C by the same names in capitals.
ghost use Rattle.std.specs.Prelude.{◌≡◌};
ghost use Rattle.wire.specs.Refusals.{fault_by};

use crate::{Fault, refusal, refusal_at};

// Why a call or a packet is refused.
#[derive(Clone, Copy, Debug, PartialEq, Eq)]
pub enum Refusal {
    NotWellFormed,
    NotInUse,
    TimeBefore,
    ShortOutput,
    WrongSize,
    WrongVersion,
    RaggedEntries,
    // With the place of the HNA entry, from 0.
    WrongMask(usize),
    NeighboursFull,
    OriginatorsFull,
    LinksFull,
    NotAllowed,
    TtlTooLow,
    WrongBurst,
    EntriesFull,
    // With the place of the HNA entry, from 0.
    HostBitsSet(usize),
}

impl From<Refusal> for Fault {
    ghost from_gives = { λ why fault. fault ≡ fault_by why };

    fn from(why: Refusal) -> Fault {
        match why {
            Refusal::NotWellFormed => refusal(1),
            Refusal::NotInUse => refusal(2),
            Refusal::TimeBefore => refusal(3),
            Refusal::ShortOutput => refusal(4),
            Refusal::WrongSize => refusal(5),
            Refusal::WrongVersion => refusal(6),
            Refusal::RaggedEntries => refusal(7),
            Refusal::WrongMask(k) => refusal_at(8, k),
            Refusal::NeighboursFull => refusal(9),
            Refusal::OriginatorsFull => refusal(10),
            Refusal::LinksFull => refusal(11),
            Refusal::NotAllowed => refusal(12),
            Refusal::TtlTooLow => refusal(13),
            Refusal::WrongBurst => refusal(14),
            Refusal::EntriesFull => refusal(15),
            Refusal::HostBitsSet(k) => refusal_at(16, k),
        }
    }
}

impl Refusal {
    // Its number alone, for the calls whose refusals carry no place.
    pub fn number(self) -> u64
        ensures { result ≡ (fault_by self).number }
    {
        Fault::from(self).number
    }
}
