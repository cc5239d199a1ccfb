// Decimal numbers: one word, the numbers with which a call's arguments begin, and lists of numbers.
#![tactic(auto)]

ghost use Rattle.std.specs.Prelude.{◌≡◌, ◌%◌, ◌≤◌, length, take, MatchOption, IsTrue, IsFalse};
ghost use Rattle.script_words.specs.Words.{next_of, after_next};
ghost use Rattle.script_numbers.specs.Numbers.{with_digit, decimal, most32, HasUnread, ReadNumbers, HasUnreadOrMore, OnlyNumbers, IsNoList, ReadList};

use script_words::{is_finished, next_word};

// The most numbers that are read in a row: a list's members.
pub const NUMBERS_MOST: usize = 40;

// As the limit of the number that says how many members a list has.
pub const MEMBERS_MOST: u64 = NUMBERS_MOST as u64;

// The largest number of 64, 32, 16 and 8 bits.
pub const MOST_64: u64 = u64::MAX;

pub const MOST_32: u64 = u32::MAX as u64;

pub const MOST_16: u64 = u16::MAX as u64;

pub const MOST_8: u64 = u8::MAX as u64;

const BASE: u64 = 10;

const DIGIT_0: u8 = b'0';

// A number with one more digit behind it.
#[tactic(auto, using(std::proofs::lemmas::Bool::Decides::nat_tests), unfolding(crate::specs::Numbers::with_digit))]
fn with_digit(number: u64, octet: u8, most: u64) -> Option<u64>
    ensures { result ≡ with_digit most number octet }
{
    if !octet.is_ascii_digit() {
        return None;
    }
    let digit = u64::from(octet - DIGIT_0);
    let next = number.checked_mul(BASE)?.checked_add(digit)?;
    (next <= most).then_some(next)
}

// A word as a decimal number of at most `most`.
pub fn decimal(word: &[u8], most: u64) -> Option<u64>
    ensures { result ≡ decimal most word.now }
{
    if word.is_empty() {
        return None;
    }
    let mut number = 0;
    for &octet in word {
        number = with_digit(number, octet, most)?;
    }
    Some(number)
}

// The number with which a text begins, of at most `most`, and what stands behind it.
fn next_number(text: &[u8], most: u64) -> Option<(u64, &[u8])>
    ensures { MatchOption result (decimal most (next_of text.now) ≡ None) (λ r. (decimal most (next_of text.now) ≡ Some r.0) × (r.1.now ≡ after_next text.now)) }
{
    let (word, rest) = next_word(text);
    Some((decimal(word, most)?, rest))
}

// The decimal numbers with which a text begins, one for each limit, are put into the first of the lent ones; and what stands
// behind them.
pub fn read_each<'a>(text: &'a [u8], limits: &[u64], lent: &mut [u64]) -> Option<&'a [u8]>
    requires { length limits.now ≤ length lent.old }
    ensures { MatchOption result (HasUnread text.now limits.now) (λ rest. ReadNumbers text.now limits.now (take (length limits.now) lent.new) rest.now) }
{
    let mut rest = text;
    for (i, &most) in limits.iter().enumerate() {
        let (number, after) = next_number(rest, most)?;
        lent[i] = number;
        rest = after;
    }
    Some(rest)
}

// The same for limits whose number is known, with the numbers by value.
pub fn read_numbers<'a, const N: usize>(
    text: &'a [u8],
    limits: &[u64; N],
) -> Option<([u64; N], &'a [u8])>
    ensures { MatchOption result (HasUnread text.now limits.now) (λ r. ReadNumbers text.now limits.now r.0 r.1.now) }
{
    let mut numbers = [0; N];
    let rest = read_each(text, limits, &mut numbers)?;
    Some((numbers, rest))
}

// The same where no word may follow: whether the numbers were all that the text has.
pub fn only_each(text: &[u8], limits: &[u64], lent: &mut [u64]) -> bool
    requires { length limits.now ≤ length lent.old }
    ensures read { IsTrue result → OnlyNumbers text.now limits.now (take (length limits.now) lent.new) }
    ensures refused { IsFalse result → HasUnreadOrMore text.now limits.now }
{
    match read_each(text, limits, lent) {
        Some(rest) => is_finished(rest),
        None => false,
    }
}

// The numbers of a text that has numbers alone: no word may follow.
pub fn only_numbers<const N: usize>(text: &[u8], limits: &[u64; N]) -> Option<[u64; N]>
    ensures { MatchOption result (HasUnreadOrMore text.now limits.now) (OnlyNumbers text.now limits.now) }
{
    // The pair is taken apart by a `let` of its own: an array straight out of an `Option` gets no proof.
    let Some(read) = read_numbers(text, limits) else {
        return None;
    };
    let (numbers, rest) = read;
    is_finished(rest).then_some(numbers)
}

// A list: how many members it has, and the members, each of at most `most`, which are put into the lent ones; and what
// stands behind it.
pub fn read_list<'a, 'o>(
    text: &'a [u8],
    most: u64,
    lent: &'o mut [u64; NUMBERS_MOST],
) -> Option<(&'o [u64], &'a [u8])>
    ensures { MatchOption result (IsNoList text.now most) (λ l. ReadList text.now most l.0.now l.1.now) }
{
    let (count, behind) = next_number(text, MEMBERS_MOST)?;
    let count = count as usize;
    let limits = [most; NUMBERS_MOST];
    let rest = read_each(behind, &limits[..count], lent)?;
    Some((&lent[..count], rest))
}

// Numbers in their own types; what has no room there is cut off. Each was read with its type's limit, so nothing is.
pub fn address(value: u64) -> u32
    ensures { result ≡ value % 4294967296 }
{
    (value % (MOST_32 + 1)) as u32
}

pub fn sequence(value: u64) -> u16
    ensures { result ≡ value % 65536 }
{
    (value % (MOST_16 + 1)) as u16
}

pub fn octet(value: u64) -> u8
    ensures { result ≡ value % 256 }
{
    (value % (MOST_8 + 1)) as u8
}

// A list of addresses.
pub fn read_addresses<'a, 'o>(
    text: &'a [u8],
    lent: &'o mut [u32; NUMBERS_MOST],
) -> Option<(&'o [u32], &'a [u8])>
    ensures { MatchOption result (IsNoList text.now most32) (λ l. ReadList text.now most32 l.0.now l.1.now) }
{
    let mut wide = [0; NUMBERS_MOST];
    let (members, rest) = read_list(text, MOST_32, &mut wide)?;
    for (i, &member) in members.iter().enumerate() {
        lent[i] = member as u32;
    }
    Some((&lent[..members.len()], rest))
}
