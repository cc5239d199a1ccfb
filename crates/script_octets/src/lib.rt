// Octets in lower-case hex.
#![tactic(auto)]

ghost use Rattle.std.specs.Prelude.{◌≡◌, ◌/◌, ◌≤◌, ◌<◌, IfSome, MatchOption, length};
ghost use Rattle.script_words.specs.Words.{next_of, after_next};
ghost use Rattle.script_octets.specs.Octets as O;

use script_words::{is_finished, next_word};

const BASE: u8 = 16;

const NO_OCTETS: &[u8] = b"-";

// The value of `0` to `9` and `a` to `f`.
#[tactic(auto, using(std::proofs::lemmas::Bool::Decides::nat_tests), unfolding(crate::specs::Octets::digit_of))]
fn digit_of(letter: u8) -> Option<u8>
    ensures value { result ≡ O.digit_of letter }
    ensures small { IfSome result (λ digit. digit < 16) }
{
    match letter {
        b'0'..=b'9' => Some(letter - b'0'),
        b'a'..=b'f' => Some(letter - b'a' + 10),
        _ => None,
    }
}

// Two digits as an octet.
fn pair(high: u8, low: u8) -> Option<u8>
    ensures { result ≡ O.octet_of high low }
{
    Some(digit_of(high)? * BASE + digit_of(low)?)
}

// The octets that a word of an even number of hex digits says, which are put into the lent ones.
fn pairs<'o>(word: &[u8], lent: &'o mut [u8]) -> Option<&'o [u8]>
    requires { length word.now / 2 ≤ length lent.old }
    ensures { MatchOption result (O.HasBadPair word.now) (λ octets. O.Pairs word.now octets.now) }
{
    let n = word.len() / 2;
    for i in 0..n {
        lent[i] = pair(word[2 * i], word[2 * i + 1])?;
    }
    Some(&lent[..n])
}

// The octets that a word says, at most as many as are lent: `-` for none.
fn read_octets<'o>(word: &[u8], lent: &'o mut [u8]) -> Option<&'o [u8]>
    ensures { MatchOption result (O.Unsayable word.now (length lent.old)) (λ octets. O.Says word.now octets.now × (length octets.now ≤ length lent.old)) }
{
    if word == NO_OCTETS {
        return Some(&[]);
    }
    if word.is_empty() || word.len() % 2 != 0 || word.len() / 2 > lent.len() {
        return None;
    }
    pairs(word, lent)
}

// The octets that the next word of a text says, at most as many as are lent, and what stands behind the word, whatever it says.
pub fn next_octets<'a, 'o>(text: &'a [u8], lent: &'o mut [u8]) -> (Option<&'o [u8]>, &'a [u8])
    ensures behind { result.1.now ≡ after_next text.now }
    ensures octets { MatchOption result.0 (O.Unsayable (next_of text.now) (length lent.old)) (λ octets. O.ReadNext text.now (length lent.old) octets.now result.1.now) }
{
    let (word, rest) = next_word(text);
    (read_octets(word, lent), rest)
}

// The octets that the last word of a text says, at most as many as are lent.
pub fn last_octets<'o>(text: &[u8], lent: &'o mut [u8]) -> Option<&'o [u8]>
    ensures { MatchOption result (O.UnsayableOrMore text.now (length lent.old)) (λ octets. O.LastOctets text.now (length lent.old) octets.now) }
{
    let (octets, rest) = next_octets(text, lent);
    if is_finished(rest) { octets } else { None }
}
