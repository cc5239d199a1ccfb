// Reads a script of calls on standard input, makes them in order on one table, and prints every answer.
#![tactic(auto)]

mod calls;
mod session;

use crate::session::{Line, Session};
use std::alloc::Global;
use std::io;
use std::io::Read;

// How many octets are read at once.
const PIECE: usize = 65536;

// Reads to the end of the input. A proved loop has to end, and nothing says that an input does: so the loop counts its
// turns, up to a number that no run uses up. A failed read ends the input too: what came before it is answered first.
fn replay<R: Read>(rt: &impl Print, alloc: Global, input: &mut R) -> io::Result<()> {
    let mut piece = vec![in alloc; 0u8; PIECE]?;
    let mut line = Line::new(alloc)?;
    let mut session = Session::new(alloc)?;
    let mut ended = Ok(());
    for _ in 0..u64::MAX {
        match input.read(&mut piece) {
            Ok(0) => break,
            Ok(n) => session.take_piece(rt, &mut line, &piece[..n])?,
            Err(e) => {
                ended = Err(e);
                break;
            }
        }
    }
    session.finish(rt, &mut line)?;
    ended
}

fn main(rt: HostRuntime) -> io::Result<()> {
    replay(&rt, rt.alloc(), &mut rt.stdin())
}
