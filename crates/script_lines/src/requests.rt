// A line as a call with its arguments.
ghost use Rattle.std.specs.Prelude.{◌≡◌, ◌≤◌, min, [], ◌∷◌, length, IfSome, IfNone, MatchOption};
ghost use Rattle.script_words.specs.Words.{next_of};
ghost use Rattle.script_numbers.specs.Numbers.{most32, HasUnreadOrMore};
ghost use Rattle.script_octets.specs.Octets.{UnsayableOrMore};
ghost use Rattle.script_lines.specs.Limits.{cells_most, packet_most, list_rows_most};
ghost use Rattle.script_lines.specs.Requests.{ReceiveFits, OwnFits, RequestFits, octets_of, asks_nothing};

use crate::bursts::{Burst, Lists};
use crate::tables::Table;
use script_numbers::{
    MOST_8, MOST_16, MOST_32, MOST_64, address, octet, only_numbers, read_numbers, sequence,
};
use script_octets::last_octets;
use script_words::{is_finished, next_word};

// The most cells that are lent, the most octets of a packet, of HNA entries, and of an output, and the most rows that are
// lent to the list call.
pub const CELLS_MOST: usize = 66560;

pub const PACKET_MOST: usize = 2000;

pub const OUTPUT_MOST: usize = 16384;

const ROWS_MOST: u64 = 16;

const COMMENT: u8 = b'#';

// The octets that the last word of a text says, at most those of a packet.
fn last_packet<'o>(text: &[u8], lent: &'o mut [u8]) -> Option<&'o [u8]>
    ensures { MatchOption result (UnsayableOrMore text.now (min (length lent.old) packet_most)) (λ packet. (length packet.now ≤ packet_most) × (length packet.now ≤ length lent.old)) }
{
    let room = lent.len().min(PACKET_MOST);
    last_octets(text, &mut lent[..room])
}

// A received packet.
#[derive(Clone, Copy)]
pub struct Receive<'o> {
    pub interface: u64,
    pub sender: u32,
    pub time: u64,
    pub output: usize,
    pub packet: &'o [u8],
}

impl<'o> Receive<'o> {
    fn read(text: &[u8], lent: &'o mut [u8]) -> Option<Self>
        ensures within { IfSome result ReceiveFits }
        ensures lent { IfSome result (λ call. length call.packet.now ≤ length lent.old) }
    {
        let limits = [MOST_64, MOST_32, MOST_64, OUTPUT_MOST as u64];
        let ([interface, sender, time, output], rest) = read_numbers(text, &limits)?;
        Some(Receive {
            interface,
            sender: address(sender),
            time,
            output: output as usize,
            packet: last_packet(rest, lent)?,
        })
    }
}

// An own packet.
#[derive(Clone, Copy)]
pub struct Own<'o> {
    pub interface: u64,
    pub time: u64,
    pub ttl: u8,
    pub flags: u8,
    pub port: u16,
    pub output: usize,
    pub hna: &'o [u8],
}

impl<'o> Own<'o> {
    fn read(text: &[u8], lent: &'o mut [u8]) -> Option<Self>
        ensures within { IfSome result OwnFits }
        ensures lent { IfSome result (λ call. length call.hna.now ≤ length lent.old) }
    {
        let limits = [
            MOST_64,
            MOST_64,
            MOST_8,
            MOST_8,
            MOST_16,
            OUTPUT_MOST as u64,
        ];
        let ([interface, time, ttl, flags, port, output], rest) = read_numbers(text, &limits)?;
        Some(Own {
            interface,
            time,
            ttl: octet(ttl),
            flags: octet(flags),
            port: sequence(port),
            output: output as usize,
            hna: last_packet(rest, lent)?,
        })
    }
}

// What a line asks for: a call with its arguments, or something of the program itself (`Cells`, `Poke` and `Dump`).
#[derive(Clone, Copy)]
pub enum Request<'o> {
    Receive(Receive<'o>),
    Burst(Burst<'o>),
    Own(Own<'o>),
    Sweep { time: u64 },
    Best { originator: u32 },
    List { originator: u32, rows: usize },
    Lookup { address: u32 },
    Check { version: u64, packet: &'o [u8] },
    Make(Table),
    Size { capacity: u64 },
    Cells { lent: usize },
    Poke { index: usize, value: u64 },
    Dump,
}

fn check<'o>(text: &[u8], lent: &'o mut [u8]) -> Option<Request<'o>>
    ensures within { IfSome result RequestFits }
    ensures lent { IfSome result (λ request. length (octets_of request) ≤ length lent.old) }
{
    let ([version], rest) = read_numbers(text, &[MOST_64])?;
    Some(Request::Check {
        version,
        packet: last_packet(rest, lent)?,
    })
}

fn sweep(text: &[u8]) -> Option<Request<'static>>
    ensures within { IfSome result RequestFits }
    ensures bare { IfSome result (λ request. length (octets_of request) ≡ 0) }
{
    let [time] = only_numbers(text, &[MOST_64])?;
    Some(Request::Sweep { time })
}

fn best(text: &[u8]) -> Option<Request<'static>>
    ensures within { IfSome result RequestFits }
    ensures bare { IfSome result (λ request. length (octets_of request) ≡ 0) }
{
    let [originator] = only_numbers(text, &[MOST_32])?;
    Some(Request::Best {
        originator: address(originator),
    })
}

fn list(text: &[u8]) -> Option<Request<'static>>
    ensures within { IfSome result RequestFits }
    ensures bare { IfSome result (λ request. length (octets_of request) ≡ 0) }
    ensures refused { IfNone result (HasUnreadOrMore text.now (most32 ∷ list_rows_most ∷ [])) }
{
    let [originator, rows] = only_numbers(text, &[MOST_32, ROWS_MOST])?;
    Some(Request::List {
        originator: address(originator),
        rows: rows as usize,
    })
}

fn lookup(text: &[u8]) -> Option<Request<'static>>
    ensures within { IfSome result RequestFits }
    ensures bare { IfSome result (λ request. length (octets_of request) ≡ 0) }
{
    let [number] = only_numbers(text, &[MOST_32])?;
    Some(Request::Lookup {
        address: address(number),
    })
}

fn size(text: &[u8]) -> Option<Request<'static>>
    ensures within { IfSome result RequestFits }
    ensures bare { IfSome result (λ request. length (octets_of request) ≡ 0) }
{
    let [capacity] = only_numbers(text, &[MOST_64])?;
    Some(Request::Size { capacity })
}

fn cells(text: &[u8]) -> Option<Request<'static>>
    ensures within { IfSome result RequestFits }
    ensures bare { IfSome result (λ request. length (octets_of request) ≡ 0) }
    ensures refused { IfNone result (HasUnreadOrMore text.now (cells_most ∷ [])) }
{
    let [lent] = only_numbers(text, &[CELLS_MOST as u64])?;
    Some(Request::Cells {
        lent: lent as usize,
    })
}

fn poke(text: &[u8]) -> Option<Request<'static>>
    ensures within { IfSome result RequestFits }
    ensures bare { IfSome result (λ request. length (octets_of request) ≡ 0) }
{
    let [index, value] = only_numbers(text, &[CELLS_MOST as u64 - 1, MOST_64])?;
    Some(Request::Poke {
        index: index as usize,
        value,
    })
}

fn dump(text: &[u8]) -> Option<Request<'static>>
    ensures within { IfSome result RequestFits }
    ensures bare { IfSome result (λ request. length (octets_of request) ≡ 0) }
{
    is_finished(text).then_some(Request::Dump)
}

// Whether a line asks for nothing: it is empty or a comment.
pub fn is_passed_over(line: &[u8]) -> bool
    ensures { result ≡ asks_nothing (next_of line.now) }
{
    let (word, _) = next_word(line);
    matches!(word, [] | [COMMENT, ..])
}

// A line as a request: `None` for a line that cannot be read. Its octets and the members of its lists are put into what is
// lent.
pub fn read<'o>(line: &[u8], lent: &'o mut [u8], lists: &'o mut Lists) -> Option<Request<'o>>
    ensures within { IfSome result RequestFits }
    ensures lent { IfSome result (λ request. length (octets_of request) ≤ length lent.old) }
{
    let (word, rest) = next_word(line);
    match word {
        b"receive" => Some(Request::Receive(Receive::read(rest, lent)?)),
        b"burst" => Some(Request::Burst(Burst::read(rest, lent, lists)?)),
        b"own" => Some(Request::Own(Own::read(rest, lent)?)),
        b"sweep" => sweep(rest),
        b"best" => best(rest),
        b"list" => list(rest),
        b"lookup" => lookup(rest),
        b"check" => check(rest, lent),
        b"make" => Some(Request::Make(Table::read(rest)?)),
        b"size" => size(rest),
        b"cells" => cells(rest),
        b"poke" => poke(rest),
        b"dump" => dump(rest),
        _ => None,
    }
}
