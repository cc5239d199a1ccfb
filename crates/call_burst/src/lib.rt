// A burst of received packets: the table is checked once, and each packet is then received behind that check.
#![tactic(auto)]

ghost use Rattle.std.specs.Prelude.{◌≡◌, cond, ◌+◌, ◌≤◌, eqb, length};
ghost use Rattle.table_layout.specs.Facts.{Knows};
ghost use Rattle.call_burst.specs.Bursts.{Spaces, One, Enough, Receives, Settles};

use call_burst_checks::fits;
use call_burst_rows::{Answers, ROWS_MOST};
use call_receive::receive_checked;
use call_receive_arrival::refused;
use rules::Received;
use rules::verdicts::Verdict;
use table_check::well_formed;
use wire::refusal;
use wire::refusals::Refusal;

// How many octets of the output a packet of this length has taken.
fn taken(number: u64, length: usize) -> usize
    ensures { result ≡ cond (eqb number 26) length 0 }
{
    if number == Verdict::PassedOn as u64 {
        length
    } else {
        0
    }
}

// One packet of the buffer, `length` octets from `at` on, received into the output from `from` on.
fn receive_one(
    cells: &mut [u64],
    octets: &[u8],
    at: usize,
    length: usize,
    sender: u32,
    interface: u64,
    time: u64,
    out: &mut [u8],
    from: usize,
) -> Received
    requires { Spaces cells.old octets.now at length out.old from }
    ensures { One cells.old octets.now at length sender interface time out.old from cells.new out.new result }
{
    let end = at + length;
    receive_checked(
        cells,
        &octets[at..end],
        sender,
        interface,
        time,
        &mut out[from..],
    )
}

// Receives each packet, in order, into the rest of the output from where the copy before it ended.
fn receive_each(
    cells: &mut [u64],
    octets: &[u8],
    lengths: &[u64],
    senders: &[u32],
    interfaces: &[u64],
    time: u64,
    out: &mut [u8],
) -> Answers
    requires { Enough cells.old octets.now lengths.now senders.now interfaces.now }
    ensures { Receives cells.old octets.now lengths.now senders.now interfaces.now time out.old cells.new out.new result }
{
    let mut rows = [refused(refusal(0)); ROWS_MOST];
    let mut at = 0;
    let mut from = 0;
    for (i, length) in lengths.iter().enumerate() {
        let length = *length as usize;
        let r = receive_one(
            cells,
            octets,
            at,
            length,
            senders[i],
            interfaces[i],
            time,
            out,
            from,
        );
        rows[i] = r;
        from += taken(r.number, length);
        at += length;
    }
    Answers {
        rows,
        n: lengths.len(),
        written: from as u64,
    }
}

// Receives a burst for a caller that lends `room` answer rows, or refuses.
pub fn burst(
    cells: &mut [u64],
    octets: &[u8],
    lengths: &[u64],
    senders: &[u32],
    interfaces: &[u64],
    time: u64,
    out: &mut [u8],
    room: usize,
) -> Result<Answers, Refusal>
    ensures { Settles cells.old octets.now lengths.now senders.now interfaces.now time out.old room cells.new out.new result }
{
    if !well_formed(cells) {
        return Err(Refusal::NotWellFormed);
    }
    if !fits(octets.len(), lengths, senders.len(), interfaces.len(), room) {
        return Err(Refusal::WrongBurst);
    }
    Ok(receive_each(cells, octets, lengths, senders, interfaces, time, out))
}
