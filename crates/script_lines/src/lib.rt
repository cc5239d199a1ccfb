// Lines of a script: put together from the pieces that are read, and each read as a call with its arguments.
#![tactic(auto)]

ghost use Rattle.std.specs.Prelude.{◌≡◌, ℕ, ◌+◌, ◌≤◌, Some, IfSome, length};

pub mod bursts;
pub mod requests;
pub mod tables;

// Gathers a part of a line behind the `begun` octets that are there, and answers how many there are then: `None` for a
// line that is too long.
pub fn gather(line: &mut [u8], begun: Option<usize>, part: &[u8]) -> Option<usize>
    ensures size { length line.new ≡ length line.old }
    ensures within { IfSome result (λ n. n ≤ length line.old) }
    ensures more { (n : ℕ) → begun ≡ Some n → IfSome result (λ m. m ≡ n + length part.now) }
{
    let begin = begun?;
    let end = begin.checked_add(part.len())?;
    line.get_mut(begin..end)?.copy_from_slice(part);
    Some(end)
}
