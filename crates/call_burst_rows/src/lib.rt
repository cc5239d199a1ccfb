// The answers to a burst's packets, gathered in an array by value, and written to the caller's rows.
#![tactic(auto)]

ghost use Rattle.std.specs.Prelude.{◌≡◌, ◌≤◌, length, take};
ghost use Rattle.lists.specs.Lists.{written_to};
ghost use Rattle.rules.specs.Settings.{packets_most};
ghost use Rattle.call_burst_rows.specs.Answers.{no_answer};

use rules::Received;
use rules::limits::PACKETS_MOST;

// As many rows as a burst has packets at the most.
pub const ROWS_MOST: usize = PACKETS_MOST as usize;

// What a burst answers: the first n rows are those of its packets, and `written` octets of the output are written. An array of the most rows and how many
// there are, since nothing is allocated.
#[derive(Clone, Copy)]
pub struct Answers {
    pub rows: [Received; ROWS_MOST],
    pub n: usize,
    pub written: u64,
}

// Writes the answers at the start of the caller's rows, in order. Further rows stay as they are.
pub fn fill_answers(rows: &mut [Received], got: Answers)
    requires { (got.n ≤ packets_most) × (got.n ≤ length rows.old) }
    ensures { rows.new ≡ written_to (take got.n got.rows) rows.old }
{
    rows[..got.n].copy_from_slice(&got.rows[..got.n]);
}
