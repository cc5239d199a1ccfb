// Octets as text.
#![tactic(auto)]

ghost use Rattle.std.specs.Prelude.{◌≡◌, ◌≤◌, ◌<◌, length};
ghost use Rattle.std.specs.Char.{digit_char};

use std::fmt::{self, Display, Formatter, Write};
use std::str;

const BASE: u8 = 16;

// How many octets are put into a text at once.
const CHUNK: usize = 32;

// What a value from 10 to 15 takes to become `a` to `f`.
const LETTERS: u8 = 87;

// A value below 16 as a hex digit.
fn hex_digit(value: u8) -> u8
    requires { value < 16 }
    ensures { result ≡ digit_char value }
{
    if value < 10 {
        b'0' + value
    } else {
        LETTERS + value
    }
}

// The digits of up to CHUNK octets, two an octet.
fn digits_of(octets: &[u8]) -> [u8; 2 * CHUNK]
    requires { length octets.now ≤ CHUNK }
{
    let mut digits = [0; 2 * CHUNK];
    for (i, &octet) in octets.iter().enumerate() {
        digits[2 * i] = hex_digit(octet / BASE);
        digits[2 * i + 1] = hex_digit(octet % BASE);
    }
    digits
}

// Octets in lower-case hex, two digits an octet, `-` for none.
#[derive(Clone, Copy)]
pub struct Hex<'a>(pub &'a [u8]);

impl Display for Hex<'_> {
    fn fmt<W: Write>(&self, f: &mut Formatter<W>) -> fmt::Result {
        if self.0.is_empty() {
            return f.write_str("-");
        }
        // Chunk by chunk: a `write!` for each octet takes more than twice the time.
        for octets in self.0.chunks(CHUNK) {
            let digits = digits_of(octets);
            // Digits are ASCII, so they are a text.
            if let Ok(text) = str::from_utf8(&digits[..2 * octets.len()]) {
                f.write_str(text)?;
            }
        }
        Ok(())
    }
}
