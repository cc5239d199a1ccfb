// A line as a burst: its numbers, its octets, and its three lists.
ghost use Rattle.std.specs.Prelude.{◌≤◌, min, [], ◌∷◌, length, IfSome, MatchOption};
ghost use Rattle.script_words.specs.Words.{next_of};
ghost use Rattle.script_numbers.specs.Numbers.{HasUnread, ReadNumbers};
ghost use Rattle.script_octets.specs.Octets.{Unsayable, ReadNext};
ghost use Rattle.script_lines.specs.Limits.{most64, output_most, buffer_most, burst_rows_most};

use crate::requests::OUTPUT_MOST;
use script_numbers::{MOST_64, NUMBERS_MOST, read_addresses, read_list, read_numbers};
use script_octets::next_octets;
use script_words::is_finished;

// The most octets of a burst's buffer, and the most answer rows that are lent to it.
pub const BUFFER_MOST: usize = 16384;

const ROWS_MOST: u64 = 40;

// Room for the members of a burst's lists.
#[derive(Clone, Copy)]
pub struct Lists {
    pub lengths: [u64; NUMBERS_MOST],
    pub senders: [u32; NUMBERS_MOST],
    pub interfaces: [u64; NUMBERS_MOST],
}

// The numbers with which a burst begins: its time, and how many octets of output and rows are lent to it.
fn numbers(text: &[u8]) -> Option<([u64; 3], &[u8])>
    ensures { MatchOption result (HasUnread text.now (most64 ∷ output_most ∷ burst_rows_most ∷ [])) (λ r. ReadNumbers text.now (most64 ∷ output_most ∷ burst_rows_most ∷ []) r.0 r.1.now) }
{
    read_numbers(text, &[MOST_64, OUTPUT_MOST as u64, ROWS_MOST])
}

// The octets of a burst's buffer, and what stands behind them.
fn buffer<'a, 'o>(text: &'a [u8], lent: &'o mut [u8]) -> (Option<&'o [u8]>, &'a [u8])
    ensures { MatchOption result.0 (Unsayable (next_of text.now) (min (length lent.old) buffer_most)) (λ octets. ReadNext text.now (min (length lent.old) buffer_most) octets.now result.1.now) }
{
    let room = lent.len().min(BUFFER_MOST);
    next_octets(text, &mut lent[..room])
}

// A burst. Its octets and the members of its lists stand in what was lent to its reading.
#[derive(Clone, Copy)]
pub struct Burst<'o> {
    pub time: u64,
    pub output: usize,
    pub rows: usize,
    pub octets: &'o [u8],
    pub lengths: &'o [u64],
    pub senders: &'o [u32],
    pub interfaces: &'o [u64],
}

impl<'o> Burst<'o> {
    ghost use Rattle.std.specs.Prelude.{◌≤◌, length, IfSome};
    ghost use Rattle.script_lines.specs.Requests.{BurstFits};

    // A burst, whose arguments are all that a text has.
    pub fn read(text: &[u8], lent: &'o mut [u8], lists: &'o mut Lists) -> Option<Self>
        ensures within { IfSome result BurstFits }
        ensures lent { IfSome result (λ burst. length burst.octets.now ≤ length lent.old) }
    {
        let ([time, output, rows], rest) = numbers(text)?;
        let (octets, rest) = buffer(rest, lent);
        let octets = octets?;
        let (lengths, rest) = read_list(rest, MOST_64, &mut lists.lengths)?;
        let (senders, rest) = read_addresses(rest, &mut lists.senders)?;
        let (interfaces, rest) = read_list(rest, MOST_64, &mut lists.interfaces)?;
        is_finished(rest).then_some(Burst {
            time,
            output: output as usize,
            rows: rows as usize,
            octets,
            lengths,
            senders,
            interfaces,
        })
    }
}
