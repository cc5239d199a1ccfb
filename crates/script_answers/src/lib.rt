// Answers as lines of text, each with its line end.
#![tactic(auto)]

use rules::verdicts::Verdict;
use rules::{Asked, LinkRow, Located, Received, Route, Swept, Written};
use script_text::Hex;
use std::fmt::{self, Display, Formatter, Write};

// Neighbour, interface, count and window of a route.
#[derive(Clone, Copy)]
struct RouteText<'a>(&'a Route);

impl Display for RouteText<'_> {
    fn fmt<W: Write>(&self, f: &mut Formatter<W>) -> fmt::Result {
        let Route {
            neighbour,
            interface,
            count,
            window,
        } = *self.0;
        write!(f, "{neighbour} {interface} {count} {window}")
    }
}

// What is answered to a packet, alone or of a burst: number, place, the flags for the other interfaces, and the route.
#[derive(Clone, Copy)]
struct ReceivedText<'a>(&'a Received);

impl Display for ReceivedText<'_> {
    fn fmt<W: Write>(&self, f: &mut Formatter<W>) -> fmt::Result {
        let Received {
            number,
            place,
            route,
            flags,
        } = *self.0;
        let route = RouteText(&route);
        write!(f, "{number} {place} {flags} {route}")
    }
}

// The first `length` octets of an output.
fn first(out: &[u8], length: usize) -> Hex<'_> {
    Hex(&out[..length.min(out.len())])
}

// The answer to a received packet of `length` octets, with the output as it was left.
#[derive(Clone, Copy)]
pub struct ReceiveLine<'a> {
    pub received: &'a Received,
    pub length: usize,
    pub out: &'a [u8],
}

impl Display for ReceiveLine<'_> {
    fn fmt<W: Write>(&self, f: &mut Formatter<W>) -> fmt::Result {
        let passed_on = self.received.number == Verdict::PassedOn as u64;
        let copied = if passed_on { self.length } else { 0 };
        let octets = first(self.out, copied);
        let received = ReceivedText(self.received);
        writeln!(f, "receive {received} {octets}")
    }
}

// The answer to a burst: its number and how many octets were written, with the output as it was left, and the answers to its packets.
#[derive(Clone, Copy)]
pub struct BurstLines<'a> {
    pub number: u64,
    pub packets: &'a [Received],
    pub written: u64,
    pub out: &'a [u8],
}

impl Display for BurstLines<'_> {
    fn fmt<W: Write>(&self, f: &mut Formatter<W>) -> fmt::Result {
        let number = self.number;
        let filled = self.packets.len();
        let written = self.written;
        let octets = first(self.out, written as usize);
        writeln!(f, "burst {number} {filled} {written} {octets}")?;
        for packet in self.packets {
            let packet = ReceivedText(packet);
            writeln!(f, "packet {packet}")?;
        }
        Ok(())
    }
}

// The answer to an own packet, with the output as it was left.
#[derive(Clone, Copy)]
pub struct OwnLine<'a> {
    pub written: &'a Written,
    pub out: &'a [u8],
}

impl Display for OwnLine<'_> {
    fn fmt<W: Write>(&self, f: &mut Formatter<W>) -> fmt::Result {
        let Written {
            number,
            place,
            length,
            sequence,
        } = *self.written;
        let sent = if number == 0 { length as usize } else { 0 };
        let octets = first(self.out, sent);
        writeln!(f, "own {number} {place} {length} {sequence} {octets}")
    }
}

// The answer to a sweep.
#[derive(Clone, Copy)]
pub struct SweepLine(pub Swept);

impl Display for SweepLine {
    fn fmt<W: Write>(&self, f: &mut Formatter<W>) -> fmt::Result {
        let Swept { number, removed } = self.0;
        writeln!(f, "sweep {number} {removed}")
    }
}

// The answer to the best question.
#[derive(Clone, Copy)]
pub struct BestLine(pub Asked);

impl Display for BestLine {
    fn fmt<W: Write>(&self, f: &mut Formatter<W>) -> fmt::Result {
        let Asked { number, route } = self.0;
        let route = RouteText(&route);
        writeln!(f, "best {number} {route}")
    }
}

// The answer to the list call, with the rows that it filled.
#[derive(Clone, Copy)]
pub struct ListLines<'a> {
    pub number: u64,
    pub rows: &'a [LinkRow],
}

impl Display for ListLines<'_> {
    fn fmt<W: Write>(&self, f: &mut Formatter<W>) -> fmt::Result {
        let number = self.number;
        let filled = self.rows.len();
        writeln!(f, "list {number} {filled}")?;
        for row in self.rows {
            let LinkRow {
                neighbour,
                interface,
                count,
                window,
                best,
            } = *row;
            writeln!(f, "row {neighbour} {interface} {count} {window} {best}")?;
        }
        Ok(())
    }
}

// The answer to the lookup.
#[derive(Clone, Copy)]
pub struct LookupLine(pub Located);

impl Display for LookupLine {
    fn fmt<W: Write>(&self, f: &mut Formatter<W>) -> fmt::Result {
        let Located {
            number,
            found,
            originator,
            network,
            mask,
        } = self.0;
        writeln!(f, "lookup {number} {found} {originator} {network} {mask}")
    }
}

// Each cell that is not 0.
#[derive(Clone, Copy)]
pub struct CellLines<'a>(pub &'a [u64]);

impl Display for CellLines<'_> {
    fn fmt<W: Write>(&self, f: &mut Formatter<W>) -> fmt::Result {
        for (index, &value) in self.0.iter().enumerate() {
            if value != 0 {
                writeln!(f, "cell {index} {value}")?;
            }
        }
        Ok(())
    }
}

// A word and a number.
#[derive(Clone, Copy)]
pub struct NumberLine<'a> {
    pub word: &'a str,
    pub number: u64,
}

impl Display for NumberLine<'_> {
    fn fmt<W: Write>(&self, f: &mut Formatter<W>) -> fmt::Result {
        let word = self.word;
        let number = self.number;
        writeln!(f, "{word} {number}")
    }
}
