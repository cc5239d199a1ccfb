// The calls of a script: each is made on the lent cells, and its answer is put behind a text.
use batman::Interfaces;
use script_answers::{BurstLines, ListLines, NumberLine, OwnLine, ReceiveLine};
use script_lines::bursts::Burst;
use script_lines::requests::{Own, Receive};
use script_lines::tables::Table;
use std::alloc::AllocError;
use std::fmt::Write;

// Each octet of an output before a call.
const FILLER: u8 = 238;

// The part of the output that is lent to a call, filled as it is before one.
fn filled(out: &mut [u8], room: usize) -> &mut [u8] {
    let room = room.min(out.len());
    let part = &mut out[..room];
    part.fill(FILLER);
    part
}

pub fn make(cells: &mut [u64], table: &Table, text: &mut String) -> Result<(), AllocError> {
    let row = table.rows;
    let interfaces = Interfaces {
        row,
        used: table.used,
    };
    let number = batman::batman_make(cells, table.settings, interfaces);
    let word = "make";
    write!(text, "{}", NumberLine { word, number })
}

pub fn receive(
    cells: &mut [u64],
    call: &Receive<'_>,
    out: &mut [u8],
    text: &mut String,
) -> Result<(), AllocError> {
    let out = filled(out, call.output);
    let received = batman::batman_receive(
        cells,
        call.packet,
        call.sender,
        call.interface,
        call.time,
        out,
    );
    let line = ReceiveLine {
        received: &received,
        length: call.packet.len(),
        out,
    };
    write!(text, "{line}")
}

pub fn burst(
    cells: &mut [u64],
    call: &Burst<'_>,
    out: &mut [u8],
    text: &mut String,
) -> Result<(), AllocError> {
    let out = filled(out, call.output);
    let answers = call_burst::burst(
        cells,
        call.octets,
        call.lengths,
        call.senders,
        call.interfaces,
        call.time,
        out,
        call.rows,
    );
    let (number, packets, written) = match &answers {
        Ok(answers) => (0, &answers.rows[..answers.n], answers.written),
        Err(refusal) => (refusal.number(), &[][..], 0),
    };
    let lines = BurstLines {
        number,
        packets,
        written,
        out: &*out,
    };
    write!(text, "{lines}")
}

pub fn own(
    cells: &mut [u64],
    call: &Own<'_>,
    out: &mut [u8],
    text: &mut String,
) -> Result<(), AllocError> {
    let out = filled(out, call.output);
    let written = batman::batman_own_packet(
        cells,
        call.interface,
        call.time,
        call.ttl,
        call.flags,
        call.port,
        call.hna,
        out,
    );
    let line = OwnLine {
        written: &written,
        out,
    };
    write!(text, "{line}")
}

pub fn list(
    cells: &[u64],
    originator: u32,
    rows: usize,
    text: &mut String,
) -> Result<(), AllocError> {
    let links = call_list::links_of(cells, originator, rows);
    let lines = match &links {
        Ok(links) => ListLines {
            number: 0,
            rows: &links.rows[..links.n],
        },
        Err(refusal) => ListLines {
            number: refusal.number(),
            rows: &[],
        },
    };
    write!(text, "{lines}")
}
