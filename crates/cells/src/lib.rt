// Rows in lent cells, for any width: found and tested.
// Nothing here knows what a row means; the contracts speak of lists of cells alone.
#![tactic(auto)]

ghost use Rattle.std.specs.Prelude.{◌≡◌};
ghost use Rattle.cells.specs.Area.{all_zero, column};
ghost use Rattle.cells.specs.Find.{Sorted, Searched};

// How many cells a pair takes: a key and what stands under it.
pub const PAIR: usize = 2;

// What a search found, and in how many rounds: `Ok` with the place of the key's row among rows that rise by their keys, or `Err` with the place where
// its row would go.
#[derive(Clone, Copy)]
pub struct SearchResult {
    pub found: Result<usize, usize>,
    pub rounds: usize,
}

// Finds a key among the first n rows of w cells, by halving. Each round compares it with one row's key, the middle one of those that are left, from row
// `low` on. A loop by hand: the library's binary search is over elements, where a row has w cells, and counts no rounds.
pub fn find(cells: &[u64], w: usize, n: usize, key: u64) -> SearchResult
    requires { Sorted w n cells.now }
    ensures { Searched (column w n cells.now) key result }
{
    let mut low = 0;
    let mut left = n;
    let mut rounds = 0;
    while 0 < left {
        let half = left / 2;
        let middle = low + half;
        let other = cells[middle * w];
        rounds += 1;
        if other == key {
            return SearchResult {
                found: Ok(middle),
                rounds,
            };
        }
        if other < key {
            low = middle + 1;
            left -= half + 1;
        } else {
            left = half;
        }
    }
    SearchResult {
        found: Err(low),
        rounds,
    }
}

// Whether every cell is zero. The bits of all are joined, with no early exit: unused cells nearly always are zero, and the loop is then done several
// cells at a time.
pub fn all_zero(cells: &[u64]) -> bool
    ensures { result ≡ all_zero cells.now }
{
    let mut bits = 0;
    for &cell in cells {
        bits |= cell;
    }
    bits == 0
}
