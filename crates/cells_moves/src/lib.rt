// Rows in lent cells, for any width: written, moved, put in, cleared.
// Nothing here knows what a row means; the contracts speak of lists of cells alone.
#![tactic(auto)]

ghost use Rattle.std.specs.Prelude.{◌≡◌, ◌+◌, ◌*◌, ◌≤◌, Bool, List, ℕ, length, take, drop};
ghost use Rattle.lists.specs.Lists.{keep};
ghost use Rattle.cells.specs.Area.{fit, zeros, written, moved_up, put_in, rows_of};
ghost use Rattle.cells_moves.specs.Keeping.{IsRow, kept_rows};

// Fills the cells with zeros.
pub fn clear(cells: &mut [u64])
    ensures { cells.new ≡ zeros (length cells.old) }
{
    cells.fill(0);
}

// Writes a row over the cells from `at` on.
pub fn write(cells: &mut [u64], at: usize, row: &[u64])
    requires { at + length row.now ≤ length cells.old }
    ensures { cells.new ≡ written cells.old at row.now }
{
    cells[at..at + row.len()].copy_from_slice(row);
}

// Writes a row over the first cells, and zeros over all behind it.
pub fn fill(cells: &mut [u64], row: &[u64])
    requires { length row.now ≤ length cells.old }
    ensures { cells.new ≡ fit (length cells.old) row.now }
{
    write(cells, 0, row);
    let n = row.len();
    clear(&mut cells[n..]);
}

// Moves w cells down, from one place to a lower one; the two may overlap. Where they are one place, nothing is touched.
pub fn move_down(cells: &mut [u64], from: usize, to: usize, w: usize)
    requires { (to ≤ from) × (from + w ≤ length cells.old) }
    ensures { cells.new ≡ written cells.old to (take w (drop from cells.old)) }
{
    if to == from {
        return;
    }
    cells.copy_within(from..from + w, to);
}

// Moves every cell from `at` on up by w: the last w fall off, and the w at `at` stay as they were.
pub fn move_up(cells: &mut [u64], at: usize, w: usize)
    requires { at + w ≤ length cells.old }
    ensures { cells.new ≡ moved_up cells.old at w }
{
    let end = cells.len() - w;
    cells.copy_within(at..end, at + w);
}

// Puts a row in at `at`: what follows moves up, and what no longer fits falls off the end.
pub fn put_in(cells: &mut [u64], at: usize, row: &[u64])
    requires { at + length row.now ≤ length cells.old }
    ensures { cells.new ≡ put_in cells.old at row.now }
{
    move_up(cells, at, row.len());
    write(cells, at, row);
}

// Keeps those of n rows of w cells that pass a test, in one pass that moves each kept row once; and how many they are.
pub fn keep_where<F: Fn(&[u64]) -> bool>(cells: &mut [u64], w: usize, n: usize, passes: F) -> usize
    requires within { n * w ≤ length cells.old }
    requires callable { (row : _) → IsRow w n cells.old row.now → F.pre passes row }
    ensures { (p : List ℕ → Bool) → ((row : _) (r : Bool) → IsRow w n cells.old row.now → F.post passes row r → r ≡ p row.now) → (cells.new ≡ kept_rows p w n cells.old) × (result ≡ length (keep p (rows_of w n cells.old))) }
{
    let mut kept = 0;
    for i in 0..n {
        let from = i * w;
        if passes(&cells[from..from + w]) {
            move_down(cells, from, kept * w, w);
            kept += 1;
        }
    }
    clear(&mut cells[kept * w..n * w]);
    kept
}
