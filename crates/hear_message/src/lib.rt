// What a message that isn't stale does to its originator's record, in the record's row of cells: it is counted or not, and then answered.
#![tactic(auto)]

ghost use Rattle.std.specs.Prelude.{◌≡◌, true};
ghost use Rattle.window.specs.Marks.{word_of};
ghost use Rattle.rules.specs.Settings.{Config, Follows, Bounded, is_address};
ghost use Rattle.rules.specs.Calls.{neighbour_of};
ghost use Rattle.rules.specs.Messages.{message_of};
ghost use Rattle.rules.specs.Table.{marks_at};
ghost use Rattle.table_record.specs.Record.{links_of, decode_record, Held};
ghost use Rattle.count_in_record.specs.Counting.{Timely};
ghost use Rattle.hear_message.specs.Hearing.{Answered, HeardIn};

use count_in_record::count_message;
use count_links::locate;
use rules::{Ogm, Policy, Route};
use table_record::{BEST, CURRENT, LAST_TTL, LINKS, links_part, route_by, route_of};
use window::{Marks, Position, is_duplicate};
use wire::refusals::Refusal;

// What is answered of a message: whether it was no duplicate or had the last TTL, whether its link is best, and the route of its originator.
#[derive(Clone, Copy)]
pub struct Answer {
    pub fresh: bool,
    pub best: bool,
    pub route: Route,
}

// What becomes of a message to a record: counted or not.
#[derive(Clone, Copy)]
pub enum Heard {
    Counted(Answer),
    Uncounted(Answer),
}

// The answer to a message, by the row as it is left.
fn answer_of(row: &[u64], p: Policy, m: Ogm, fresh: bool) -> Answer
    requires { Held row.now × Bounded p }
    ensures { (κ : Config) → Follows κ p → Answered κ m.link (decode_record row.now).1 fresh result }
{
    let best = row[BEST] == m.link;
    let route = route_of(row, p.window as u32);
    Answer { fresh, best, route }
}

// The answer to a message that was counted, by the row as it is left, where its link has these marks: they give the route where that link is best.
fn answer_counted(row: &[u64], p: Policy, m: Ogm, marks: Marks) -> Answer
    requires { Held row.now × Bounded p × (word_of marks ≡ marks_at (links_of row.now) m.link) }
    ensures { (κ : Config) → Follows κ p → Answered κ m.link (decode_record row.now).1 true result }
{
    let best = row[BEST];
    if best != m.link {
        return answer_of(row, p, m, true);
    }
    let route = route_by(best, marks, p.window as u32);
    Answer {
        fresh: true,
        best: true,
        route,
    }
}

// What a message whose number isn't stale, and lies so beside the window, does to its originator's record: one that comes by a bidirectional link and is no
// duplicate is counted. Duplicate and last TTL are judged before counting, best and route after it. What is counted is no duplicate, so its TTL is not asked for.
pub fn hear(
    row: &mut [u64],
    p: Policy,
    m: Ogm,
    hna: &[u8],
    bidirectional: bool,
    position: Position,
) -> Result<Heard, Refusal>
    requires { Held row.old × Bounded p × (is_address (neighbour_of m.link) ≡ true) × Timely p row.old m.sequence position }
    ensures { (κ : Config) → Follows κ p → HeardIn κ (message_of m hna.now) bidirectional row.old row.new result }
{
    let spot = locate(links_part(row), row[LINKS] as usize, m.link);
    let marks = spot.marks;
    let duplicate = is_duplicate(position, row[CURRENT] as u16, m.sequence, marks);
    if !(bidirectional & !duplicate) {
        let fresh = !duplicate | (m.ttl as u64 == row[LAST_TTL]);
        return Ok(Heard::Uncounted(answer_of(row, p, m, fresh)));
    }
    let marks = count_message(row, p, m, hna, spot, position)?;
    Ok(Heard::Counted(answer_counted(row, p, m, marks)))
}
