// The words of a line: runs of octets that are no spaces.
#![tactic(auto)]

ghost use Rattle.std.specs.Prelude.{◌≡◌, ◌↔◌, [], IsTrue};
ghost use Rattle.script_words.specs.Words.{from_word, next_of, after_next};

pub const SPACE: u8 = b' ';

// A text from its first octet on that is no space.
fn skip_spaces(text: &[u8]) -> &[u8]
    ensures { result.now ≡ from_word text.now }
{
    let word = text.iter().position(|&octet| octet != SPACE);
    &text[word.unwrap_or(text.len())..]
}

// The next word of a text, empty where none is left, and what stands behind it.
pub fn next_word(text: &[u8]) -> (&[u8], &[u8])
    ensures word { result.0.now ≡ next_of text.now }
    ensures rest { result.1.now ≡ after_next text.now }
{
    let begun = skip_spaces(text);
    let space = begun.iter().position(|&octet| octet == SPACE);
    begun.split_at(space.unwrap_or(begun.len()))
}

// Whether no word is left.
pub fn is_finished(text: &[u8]) -> bool
    ensures { IsTrue result ↔ (from_word text.now ≡ []) }
{
    skip_spaces(text).is_empty()
}
