// Lines: put together from the pieces that are read, and each answered.
use crate::calls;
use script_answers::{BestLine, CellLines, LookupLine, NumberLine, SweepLine};
use script_lines::bursts::{BUFFER_MOST, Lists};
use script_lines::requests::{CELLS_MOST, OUTPUT_MOST, Request, is_passed_over};
use script_lines::{gather, requests};
use script_numbers::NUMBERS_MOST;
use std::alloc::{AllocError, Global};
use std::fmt::Write;
use std::io;

// How many octets a line has at most.
const LINE_MOST: usize = 65536;

const LINE_END: u8 = b'\n';

// How many octets of text are gathered before they are written out.
const GATHERED: usize = 65536;

// How many octets a cell's line has at most: `cell`, a space and 5 digits, a space and 20 digits, and the line end.
const CELL_LINE: usize = 32;

// The text has room for what is gathered before it is written out, and for the longest answer behind it: all cells.
const TEXT: usize = GATHERED + CELLS_MOST * CELL_LINE;

// The present line, as far as it was read.
#[derive(Drop)]
pub struct Line {
    octets: Vec<u8>,
    // How many octets were gathered; `None` for a line that is too long.
    length: Option<usize>,
}

impl Line {
    pub fn new(alloc: Global) -> Result<Self, AllocError> {
        Ok(Line {
            octets: vec![in alloc; 0u8; LINE_MOST]?,
            length: Some(0),
        })
    }

    fn gather(&mut self, part: &[u8]) {
        self.length = gather(&mut self.octets, self.length, part);
    }

    fn is_empty(&self) -> bool {
        self.length == Some(0)
    }

    // The line, unless it is too long.
    fn whole(&self) -> Option<&[u8]> {
        self.octets.get(..self.length?)
    }
}

// The cells, of which the first are lent to the calls.
#[derive(Drop)]
struct Cells {
    all: Vec<u64>,
    lent: usize,
}

impl Cells {
    // Does what a line asks for, with the output that its call may be lent, and puts the answer behind the text.
    fn obey(
        &mut self,
        request: Request<'_>,
        out: &mut [u8],
        text: &mut String,
    ) -> Result<(), AllocError> {
        let lent = self.lent.min(self.all.len());
        let cells = &mut self.all[..lent];
        match request {
            Request::Receive(call) => calls::receive(cells, &call, out, text),
            Request::Burst(call) => calls::burst(cells, &call, out, text),
            Request::Own(call) => calls::own(cells, &call, out, text),
            Request::Sweep { time } => {
                let swept = batman::batman_sweep(cells, time);
                write!(text, "{}", SweepLine(swept))
            }
            Request::Best { originator } => {
                let asked = batman::batman_best(cells, originator);
                write!(text, "{}", BestLine(asked))
            }
            Request::List { originator, rows } => calls::list(cells, originator, rows, text),
            Request::Lookup { address } => {
                let located = batman::batman_lookup(cells, address);
                write!(text, "{}", LookupLine(located))
            }
            Request::Check { version, packet } => {
                let word = "check";
                let number = batman::batman_packet_check(packet, version);
                write!(text, "{}", NumberLine { word, number })
            }
            Request::Make(table) => calls::make(cells, &table, text),
            Request::Size { capacity } => {
                let word = "size";
                let number = batman::batman_cells_needed(capacity);
                write!(text, "{}", NumberLine { word, number })
            }
            Request::Dump => write!(text, "{}", CellLines(cells)),
            Request::Cells { lent } => {
                self.lent = lent;
                Ok(())
            }
            Request::Poke { index, value } => {
                if let Some(cell) = self.all.get_mut(index) {
                    *cell = value;
                }
                Ok(())
            }
        }
    }
}

// What is kept from line to line. All that a line needs stands here, or on the stack: no line takes memory.
#[derive(Drop)]
pub struct Session {
    cells: Cells,
    // The octets and the lists of the present line's request.
    octets: [u8; BUFFER_MOST],
    lists: Lists,
    // The output of its call.
    output: [u8; OUTPUT_MOST],
    // The answers that are not written out.
    text: String,
    // How many lines were ended.
    lines: u64,
}

impl Session {
    pub fn new(alloc: Global) -> Result<Self, AllocError> {
        Ok(Session {
            cells: Cells {
                all: vec![in alloc; 0u64; CELLS_MOST]?,
                lent: CELLS_MOST,
            },
            octets: [0; BUFFER_MOST],
            lists: Lists {
                lengths: [0; NUMBERS_MOST],
                senders: [0; NUMBERS_MOST],
                interfaces: [0; NUMBERS_MOST],
            },
            output: [0; OUTPUT_MOST],
            text: String::with_capacity(alloc, TEXT)?,
            lines: 0,
        })
    }

    // A line that cannot be read.
    fn refuse(&mut self) -> Result<(), AllocError> {
        writeln!(self.text, "error {}", self.lines)
    }

    // Does what a line asks for.
    fn answer(&mut self, line: &[u8]) -> Result<(), AllocError> {
        if is_passed_over(line) {
            return Ok(());
        }
        match requests::read(line, &mut self.octets, &mut self.lists) {
            Some(request) => self.cells.obey(request, &mut self.output, &mut self.text),
            None => self.refuse(),
        }
    }

    // Writes out what the text holds.
    fn write_out(&mut self, rt: &impl Print) -> io::Result<()> {
        rt.write_all(self.text.as_bytes())?;
        self.text.clear();
        Ok(())
    }

    // The end of a line: it is answered, or refused where it is too long, and the next one begins. The text is written out
    // first if enough is gathered, and also where there is no memory for an answer: those before it are told.
    fn end_line(&mut self, rt: &impl Print, line: &mut Line) -> io::Result<()> {
        if self.text.len() >= GATHERED {
            self.write_out(rt)?;
        }
        self.lines = self.lines.wrapping_add(1);
        let answered = match line.whole() {
            Some(octets) => self.answer(octets),
            None => self.refuse(),
        };
        if answered.is_err() {
            self.write_out(rt)?;
        }
        answered?;
        line.length = Some(0);
        Ok(())
    }

    // Answers each line that ends in a piece, and gathers what is left of it.
    pub fn take_piece(&mut self, rt: &impl Print, line: &mut Line, piece: &[u8]) -> io::Result<()> {
        for part in piece.split_inclusive(|&octet| octet == LINE_END) {
            match part.strip_suffix(b"\n") {
                Some(end) => {
                    line.gather(end);
                    self.end_line(rt, line)?;
                }
                None => line.gather(part),
            }
        }
        Ok(())
    }

    // The end of the input: the last line may lack its line end.
    pub fn finish(&mut self, rt: &impl Print, line: &mut Line) -> io::Result<()> {
        if !line.is_empty() {
            self.end_line(rt, line)?;
        }
        self.write_out(rt)
    }
}
