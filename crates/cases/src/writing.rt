// Whether the writer makes a message again from what the reader found in it, and leaves every other byte of the buffer alone.
ghost use Rattle.std.specs.Prelude.{◌≤◌, length};

use super::buffer::Buffer;
use config::{Config, Refusal};
use message::Message;
use writer::write;

// The place that the message is written from.
const BEFORE: usize = 3;

const AFTER: usize = 2;

// The message is written where it fits, and refused by a buffer that is one byte short, and at a place past the end.
pub(crate) fn is_written_again(config: &Config, got: &Message, msg: &[u8]) -> bool
    requires { length msg.now ≤ 2048 }
{
    let end = BEFORE + msg.len();
    is_written(config, got, msg)
        && is_refused(config, got, end - 1, BEFORE)
        && is_refused(config, got, end + AFTER, end + 3)
}

// The message is written into a buffer that it fits, and no other byte of the buffer changes.
fn is_written(config: &Config, got: &Message, msg: &[u8]) -> bool
    requires { length msg.now ≤ 2048 }
{
    let end = BEFORE + msg.len();
    let mut buffer = Buffer::fresh();
    let answer = write(
        config,
        &got.envelope,
        &got.replica,
        buffer.lend(end + AFTER),
        BEFORE,
    );
    answer == Ok(end as u64) && buffer.message(BEFORE, end) == Some(msg)
}

// The message is refused by a buffer of a size, from a place on, and no byte of the buffer has changed.
fn is_refused(config: &Config, got: &Message, size: usize, at: usize) -> bool {
    let mut buffer = Buffer::fresh();
    let answer = write(config, &got.envelope, &got.replica, buffer.lend(size), at);
    answer == Err(Refusal::Narrow) && buffer.is_untouched()
}
