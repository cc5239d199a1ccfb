// Sequence numbers modulo 65,536 and a link's window of marks.
#![tactic(auto, unfolding(crate::specs::Marks::word_of, crate::specs::Window::bit, crate::specs::Window::distance))]

ghost use Rattle.std.specs.Prelude.{◌≡◌, true, ◌&&◌, ◌≤◌, ◌<◌, ◌^◌, ltb};
ghost use Rattle.window.specs.Window as W;
ghost use Rattle.window.specs.Marks.{word_bits, word_of};

// How many bits a word of marks has, so the largest window.
const WORD_BITS: u64 = 64;

// How many sequence numbers there are.
pub const NUMBERS: u64 = 65536;

// How far below current the number half way round lies.
const HALF_WAY: u64 = NUMBERS / 2;

// Where a number lies beside a window.
#[derive(Clone, Copy, Debug, PartialEq, Eq)]
pub enum Position {
    New,
    Inside,
    Stale,
}

// A link's marks: bit k of the word is the mark of the number k below current.
#[derive(Clone, Copy, Debug, Default, PartialEq, Eq)]
pub struct Marks {
    pub word: u64,
}

// How far n lies below current, modulo 65,536.
pub fn distance(current: u16, n: u16) -> u64
    ensures { result ≡ W.distance current n }
{
    (current as u64 + NUMBERS - n as u64) % NUMBERS
}

// The sequence test: where n lies beside the window of w numbers whose current number is given. A number more than half way below current lies less than
// half way above it.
pub fn sequence_test(w: u64, current: u16, n: u16) -> Position
    ensures { result ≡ W.position w current n }
{
    let below = distance(current, n);
    if below < w {
        return Position::Inside;
    }
    if below <= HALF_WAY {
        return Position::Stale;
    }
    Position::New
}

pub fn is_new(p: Position) -> bool
    ensures { result ≡ W.is_new p }
{
    p == Position::New
}

pub fn is_inside(p: Position) -> bool
    ensures { result ≡ W.is_inside p }
{
    p == Position::Inside
}

pub fn is_stale(p: Position) -> bool
    ensures { result ≡ W.is_stale p }
{
    p == Position::Stale
}

// The current number once n, which lies so beside the window, is counted.
pub fn advance(p: Position, current: u16, n: u16) -> u16
    ensures { result ≡ W.current_by p current n }
{
    if is_new(p) { n } else { current }
}

// The marks of a link by which nothing was counted.
pub fn no_marks() -> Marks
    ensures { word_of result ≡ 0 }
{
    Marks::default()
}

// Whether the number k below current is marked.
pub fn is_marked(m: Marks, k: u64) -> bool
    requires { k < word_bits }
    ensures { result ≡ W.bit (word_of m) k }
{
    (m.word >> k) % 2 == 1
}

// Whether n, which lies so beside the window, is inside and already marked.
pub fn is_duplicate(p: Position, current: u16, n: u16, m: Marks) -> bool
    requires { W.is_inside p ≡ true → W.distance current n < word_bits }
    ensures { result ≡ (W.is_inside p && W.marked (word_of m) current n) }
{
    if !is_inside(p) {
        return false;
    }
    is_marked(m, distance(current, n))
}

// The marks with that of the number k below current set.
pub fn mark(m: Marks, k: u64) -> Marks
    requires { k < word_bits }
    ensures { word_of result ≡ W.mark (word_of m) k }
{
    Marks {
        word: m.word | 1 << k,
    }
}

// The marks after current has moved up by d. Shifting left and then back cuts the word to w bits with no mask, also where w is all of them.
pub fn shift(w: u64, d: u64, m: Marks) -> Marks
    requires { (1 ≤ w) × (w ≤ word_bits) }
    ensures { word_of result ≡ W.shift w d (word_of m) }
{
    if w <= d {
        return Marks { word: 0 };
    }
    let spare = WORD_BITS - w;
    Marks {
        word: (m.word << (d + spare)) >> spare,
    }
}

// Whether no mark lies outside the window.
pub fn fits(w: u64, m: Marks) -> bool
    requires { (1 ≤ w) × (w ≤ word_bits) }
    ensures { result ≡ ltb (word_of m) (2 ^ w) }
{
    m.word <= u64::MAX >> (WORD_BITS - w)
}

// A link's count: the number of set marks.
pub fn count(m: Marks) -> u32
    ensures { result ≡ W.count (word_of m) }
{
    u64::count_ones(m.word)
}

// Whether any mark is set.
pub fn has_mark(m: Marks) -> bool
    ensures { result ≡ W.has_mark (word_of m) }
{
    0 < m.word
}
