// A line of a script as a command and its bytes.
ghost use Rattle.std.specs.Prelude.{◌≡◌, ◌≤◌, length, IfOk, IfSome};

use super::command::Command;
use super::forms::parse;
use super::text::{MOST_BYTES, SPACE, Words, decode};

// The most characters of a line.
const MOST_LINE: usize = 8192;

// What a line asks for, and how many bytes it has, which lie in the caller's buffer.
#[derive(Clone, Copy)]
pub struct Understood {
    pub command: Command,
    pub count: usize,
}

// Why a line asks for nothing that can be done: it is past the program's bounds, or cannot be read.
#[derive(Clone, Copy, Debug, PartialEq, Eq)]
pub enum Fault {
    Beyond,
    Unreadable,
}

// Reads a line, and puts its bytes down at the front of `out`; a line without a word asks for nothing. A line that cannot be read is so even where it is past
// a bound too, but for its length.
pub fn understand(line: &[u8], out: &mut [u8; SPACE]) -> Result<Option<Understood>, Fault>
    ensures { IfOk result (λ o. IfSome o (λ u. u.count ≤ 2048)) × (length out.new ≡ length out.old) }
{
    if MOST_LINE < line.len() {
        return Err(Fault::Beyond);
    }
    let text = line.split(|c| *c == b'#').next().unwrap_or(line);
    if Words(text).next().is_none() {
        return Ok(None);
    }
    let (command, bytes) = parse(Words(text)).ok_or(Fault::Unreadable)?;
    let count = decode(bytes, out).ok_or(Fault::Unreadable)?;
    if MOST_BYTES < count || (MOST_BYTES as u64) < command.lent() {
        return Err(Fault::Beyond);
    }
    Ok(Some(Understood { command, count }))
}
