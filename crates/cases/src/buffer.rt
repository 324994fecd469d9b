// Buffers that are lent to a call: filled with a mark, so that a byte changed outside the message shows.
ghost use Rattle.std.specs.Prelude.{◌≤◌};

use super::print::{Answer, Hex};
use config::Refusal;
use script::MOST_BYTES;
use std::{fmt, io};

// What every byte of a buffer is before a call.
const MARK: u8 = 165;

// Room for the longest buffer and five bytes more.
const ROOM: usize = MOST_BYTES + 5;

fn is_marked(bytes: &[u8]) -> bool {
    bytes.iter().all(|b| *b == MARK)
}

#[derive(Clone, Copy)]
pub(crate) struct Buffer([u8; ROOM]);

impl Buffer {
    pub(crate) fn fresh() -> Buffer {
        Buffer([MARK; ROOM])
    }

    // The front of it, for a call to write in.
    pub(crate) fn lend(&mut self, len: usize) -> &mut [u8] {
        let end = len.min(ROOM);
        &mut self.0[..end]
    }

    pub(crate) fn is_untouched(&self) -> bool {
        is_marked(&self.0)
    }

    // The bytes from a place up to another, if the buffer has them and no other byte has changed.
    pub(crate) fn message(&self, at: usize, next: usize) -> Option<&[u8]> {
        let message = self.0.get(at..next)?;
        let alone = is_marked(&self.0[..at]) && is_marked(&self.0[next..]);
        alone.then_some(message)
    }
}

// The length of the buffer that is lent: the one that the line gives, since a line that gives more is past the program's bounds.
fn lent(len: u64) -> usize
    ensures { result ≤ 2048 }
{
    len.min(MOST_BYTES as u64) as usize
}

// Makes a call that is lent a buffer, of a length and from a place on, and answers it.
pub(crate) fn answer_written<F: FnOnce(&mut [u8], usize) -> Result<u64, Refusal>>(
    out: &impl Print,
    at: u64,
    len: u64,
    call: F,
) -> io::Result<()>
    requires { F.IsAlwaysCallable call }
{
    let mut buffer = Buffer::fresh();
    let answer = call(buffer.lend(lent(len)), at as usize);
    out.print(Written {
        answer,
        at,
        buffer: &buffer,
    })
}

// What a call answered that was lent a buffer: the place after the message and the message; `ok` alone where it wrote none; `spoiled` where another byte
// changed.
#[derive(Clone, Copy)]
struct Written<'a> {
    answer: Result<u64, Refusal>,
    at: u64,
    buffer: &'a Buffer,
}

impl fmt::Display for Written<'_> {
    fn fmt<W: fmt::Write>(&self, f: &mut fmt::Formatter<W>) -> fmt::Result {
        match self.answer {
            Ok(next) if next != self.at => {
                match self.buffer.message(self.at as usize, next as usize) {
                    Some(message) => write!(f, "ok {next} {}", Hex(message)),
                    None => f.write_str("spoiled"),
                }
            }
            answer if self.buffer.is_untouched() => write!(f, "{}", Answer(answer.map(|_| "ok"))),
            _ => f.write_str("spoiled"),
        }
    }
}
