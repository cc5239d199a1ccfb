// The originators' records in a table's cells: found by address, told of a message, and made.
#![tactic(auto)]

ghost use Rattle.std.specs.Prelude.{◌≡◌, true, false, ℕ, ◌<◌, ◌≤◌, get_or};
ghost use Rattle.window.specs.Window.{is_stale};
ghost use Rattle.wire.specs.Check.{entries};
ghost use Rattle.rules.specs.Settings.{Follows, Bounded, entry_most, is_address};
ghost use Rattle.rules.specs.Messages.{message_of};
ghost use Rattle.rules.specs.Calls.{neighbour_of};
ghost use Rattle.table_layout.specs.Layout.{capacity_at, records_at};
ghost use Rattle.table_layout.specs.Cells.{decode};
ghost use Rattle.table_layout.specs.Facts.{Knows, record_at};
ghost use Rattle.table_originators.specs.Originators.{Holds, Stands, Missing, RecordSought, LiesAt, HeardAt, Made};

use cells::{SearchResult, find};
use cells_moves::move_up;
use count_in_record::first_record;
use hear_message::{Heard, hear};
use rules::{Ogm, Policy, Route};
use table_layout::{RECORDS, RECORDS_FROM, TIE, WINDOW};
use table_record::{CURRENT, WIDTH};
use window::{Position, sequence_test};
use wire::refusals::Refusal;

// What counting is told of the table's settings.
pub fn policy_of(cells: &[u64]) -> Policy
    requires { Knows cells.now }
    ensures { Follows (decode cells.now).config result × Bounded result }
{
    Policy {
        window: cells[WINDOW],
        tie: cells[TIE],
    }
}

// Where an originator's record stands among those held, or the place where it would go, in at most nine rounds.
pub fn find_record(cells: &[u64], originator: u32) -> SearchResult
    requires { Knows cells.now }
    ensures { RecordSought cells.now originator result }
{
    find(
        &cells[RECORDS_FROM..],
        WIDTH,
        cells[RECORDS] as usize,
        originator as u64,
    )
}

// The cells of the record at place i.
pub fn record_at(cells: &[u64], i: usize) -> &[u64]
    requires { Holds cells.now i }
    ensures { result.now ≡ record_at cells.now i }
{
    let at = RECORDS_FROM + i * WIDTH;
    let end = at + WIDTH;
    &cells[at..end]
}

// The sequence test of the record at place i.
pub fn position_at(cells: &[u64], i: usize, n: u16) -> Position
    requires { Holds cells.now i }
    ensures { LiesAt cells.now i n result }
{
    let row = record_at(cells, i);
    sequence_test(cells[WINDOW], row[CURRENT] as u16, n)
}

// What a message whose number isn't stale, and lies so beside the window, does to the record at place i, and what is answered of it.
pub fn hear_at(
    cells: &mut [u64],
    i: usize,
    m: Ogm,
    hna: &[u8],
    bidirectional: bool,
    position: Position,
) -> Result<Heard, Refusal>
    requires { Holds cells.old i × (is_address (neighbour_of m.link) ≡ true) × LiesAt cells.old i m.sequence position × (is_stale position ≡ false) }
    ensures { (o : ℕ) → Stands cells.old o i → HeardAt cells.old cells.new o i (message_of m hna.now) bidirectional result }
{
    let p = policy_of(cells);
    let at = RECORDS_FROM + i * WIDTH;
    let end = at + WIDTH;
    hear(&mut cells[at..end], p, m, hna, bidirectional, position)
}

// Puts the record that an originator's first counted message makes in at its place i, and answers its route. Only records that are held move, and the
// record is written where it stays.
pub fn make_record(cells: &mut [u64], i: usize, originator: u32, m: Ogm, hna: &[u8]) -> Route
    requires { Missing cells.old originator i × (get_or cells.old records_at 0 < get_or cells.old capacity_at 0) × (is_address (neighbour_of m.link) ≡ true) × (entries hna.now ≤ entry_most) }
    ensures { Made cells.old cells.new originator (message_of m hna.now) result }
{
    let p = policy_of(cells);
    let n = cells[RECORDS];
    let end = RECORDS_FROM + (n as usize + 1) * WIDTH;
    move_up(&mut cells[RECORDS_FROM..end], i * WIDTH, WIDTH);
    let at = RECORDS_FROM + i * WIDTH;
    let after = at + WIDTH;
    let route = first_record(&mut cells[at..after], originator as u64, p, m, hna);
    cells[RECORDS] = n + 1;
    route
}
