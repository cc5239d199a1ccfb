// Counting a message in its originator's record, a row of cells; and the record that the first counted message makes.
#![tactic(auto)]

ghost use Rattle.std.specs.Prelude.{◌≡◌, true, cond, ◌∷◌, ◌++◌, ◌*◌, ◌≤◌, length, get_or};
ghost use Rattle.cells.specs.Area.{fit};
ghost use Rattle.wire.specs.Check.{entries};
ghost use Rattle.wire.specs.Entries.{entries_of};
ghost use Rattle.rules.specs.Settings.{Config, Follows, Bounded, is_address, link_most, entry_most, link_cells, entry_area_cells, record_cells};
ghost use Rattle.rules.specs.Calls.{neighbour_of};
ghost use Rattle.rules.specs.Messages.{message_of};
ghost use Rattle.table_record.specs.Record.{address_at, entries_at, entries_part, links_of, Held};
ghost use Rattle.count_links.specs.Links.{SpotOf};
ghost use Rattle.count_in_record.specs.Counting.{Timely, CountedIn, FirstIn};

use cells_moves::fill;
use count_best_link::Step;
use count_entries::{keep_entries, too_many};
use count_links::{Left, Spot, recount};
use rules::limits::LINKS_MOST;
use rules::{Ogm, Policy, Route};
use table_record::{
    ADDRESS, BEST, CURRENT, FIELDS, LAST_TTL, LINK, LINKS, LINKS_CELLS, LINKS_END, TIME,
    links_part, put_link, route_by,
};
use window::{Marks, Position, advance, distance, is_new, mark, no_marks};
use wire::refusals::Refusal;

// Room for one link more: the ninth is there only until it is known whether another gives up its place.
const SCRATCH: usize = LINKS_CELLS + LINK;

// Writes a record's cells after its address: the window's current number, the message that was counted, the links, and zeros behind them. The entries
// are not touched.
fn store(row: &mut [u64], current: u16, m: Ogm, left: Left, links: &[u64])
    requires { (length row.old ≡ record_cells) × (length links.now ≤ link_most * link_cells) }
    ensures { row.new ≡ get_or row.old address_at 0 ∷ current ∷ m.time ∷ m.ttl ∷ left.links ∷ left.best ∷ get_or row.old entries_at 0 ∷ (fit (link_most * link_cells) links.now ++ entries_part row.old) }
{
    row[CURRENT] = current as u64;
    row[TIME] = m.time;
    row[LAST_TTL] = m.ttl as u64;
    row[LINKS] = left.links as u64;
    row[BEST] = left.best;
    fill(&mut row[FIELDS..LINKS_END], links);
}

// Writes the same, and the message's entries where they replace those that are kept.
fn store_message(
    row: &mut [u64],
    current: u16,
    m: Ogm,
    hna: &[u8],
    replaced: bool,
    left: Left,
    links: &[u64],
)
    requires { (length row.old ≡ record_cells) × (length links.now ≤ link_most * link_cells) × (replaced ≡ true → entries hna.now ≤ entry_most) }
    ensures { row.new ≡ get_or row.old address_at 0 ∷ current ∷ m.time ∷ m.ttl ∷ left.links ∷ left.best ∷ cond replaced (entries hna.now) (get_or row.old entries_at 0) ∷ (fit (link_most * link_cells) links.now ++ cond replaced (fit entry_area_cells (entries_of hna.now)) (entries_part row.old)) }
{
    store(row, current, m, left, links);
    if replaced {
        keep_entries(row, hna);
    }
}

// Counts a message whose link stands at this spot and whose number lies so beside the window, and answers the marks that the link then has. Nothing changes
// where it is refused: the links are written to a scratch first, and to the row once it is known that they and the entries fit.
pub fn count_message(
    row: &mut [u64],
    p: Policy,
    m: Ogm,
    hna: &[u8],
    spot: Spot,
    position: Position,
) -> Result<Marks, Refusal>
    requires { Held row.old × Bounded p × SpotOf (links_of row.old) m.link spot × Timely p row.old m.sequence position }
    ensures { (κ : Config) → Follows κ p → CountedIn κ (message_of m hna.now) row.old row.new result }
{
    let current = row[CURRENT] as u16;
    let n = row[LINKS] as usize;
    let next = advance(position, current, m.sequence);
    let up = distance(next, current);
    let below = distance(next, m.sequence);
    let step = Step {
        policy: p,
        up,
        below,
    };
    let mut out = [0u64; SCRATCH];
    let left = recount(&mut out, links_part(row), n, spot, step, m.link, row[BEST]);
    if LINKS_MOST < left.links as u64 {
        return Err(Refusal::LinksFull);
    }
    let replaced = is_new(position);
    if replaced & too_many(hna) {
        return Err(Refusal::EntriesFull);
    }
    let end = left.links * LINK;
    store_message(row, next, m, hna, replaced, left, &out[..end]);
    Ok(left.marks)
}

// Writes the record that the first counted message makes, whatever the row held, and answers its route: its only link is best.
pub fn first_record(row: &mut [u64], address: u64, p: Policy, m: Ogm, hna: &[u8]) -> Route
    requires { (length row.old ≡ record_cells) × Bounded p × (is_address (neighbour_of m.link) ≡ true) × (entries hna.now ≤ entry_most) }
    ensures { (κ : Config) → Follows κ p → FirstIn κ (message_of m hna.now) address row.new result }
{
    let marks = mark(no_marks(), 0);
    let mut links = [0u64; LINK];
    put_link(&mut links, 0, m.link, marks);
    row[ADDRESS] = address;
    let left = Left {
        links: 1,
        best: m.link,
        marks,
    };
    store_message(row, m.sequence, m, hna, true, left, &links);
    route_by(m.link, marks, p.window as u32)
}
