// What make is given: the settings, how many interfaces are in use, and the four interface rows.
ghost use Rattle.std.specs.Prelude.{◌≡◌, [], Some};
ghost use Rattle.script_words.specs.Words.{from_word};

use rules::limits::PRESENT_STAYS;
use rules::{Interface, Settings};
use script_numbers::{MOST_16, MOST_32, MOST_64, address, only_numbers, read_numbers, sequence};
use script_words::is_finished;

// The tie where it is left out.
pub const TIE_DEFAULT: u64 = PRESENT_STAYS;

#[derive(Clone, Copy)]
pub struct Table {
    pub settings: Settings,
    pub used: u64,
    pub rows: [Interface; 4],
}

// The interface row with which a text begins, and what stands behind it.
fn read_row(text: &[u8]) -> Option<(Interface, &[u8])> {
    let ([own, broadcast, first], rest) = read_numbers(text, &[MOST_32, MOST_32, MOST_16])?;
    let row = Interface {
        own: address(own),
        broadcast: address(broadcast),
        first: sequence(first),
    };
    Some((row, rest))
}

// The tie, the last number of a line, which may be left out.
fn read_tie(text: &[u8]) -> Option<u64>
    ensures { from_word text.now ≡ [] → result ≡ Some TIE_DEFAULT }
{
    if is_finished(text) {
        return Some(TIE_DEFAULT);
    }
    let [tie] = only_numbers(text, &[MOST_64])?;
    Some(tie)
}

impl Table {
    ghost use Rattle.std.specs.Prelude.{IfSome};
    ghost use Rattle.script_lines.specs.Tables.{ReadSettings};

    // A table, whose numbers are all that a text has.
    pub fn read(text: &[u8]) -> Option<Self>
        ensures { IfSome result (ReadSettings text.now) }
    {
        let ([version, window, timeout, purge, capacity, used], rest) = read_numbers(
            text,
            &[MOST_64; 6],
        )?;
        let (first, rest) = read_row(rest)?;
        let (second, rest) = read_row(rest)?;
        let (third, rest) = read_row(rest)?;
        let (fourth, rest) = read_row(rest)?;
        let settings = Settings {
            version,
            window,
            timeout,
            purge,
            capacity,
            tie: read_tie(rest)?,
        };
        let rows = [first, second, third, fourth];
        Some(Table {
            settings,
            used,
            rows,
        })
    }
}
