// Bit 4: the register.
ghost use Rattle.std.specs.Prelude.{◌≡◌, ◌≤◌, length, IfOk};
ghost use Rattle.reader.specs.Registers.{register_answer, kept_at, shown};
ghost use Rattle.reader.specs.Steps.{at_place, on_ok};

use super::step::{MOST_TWO, read_number, skip};
use config::{Config, Refusal};
use replica::{MOST_VALUE, Register, Tag, Value};

// A register's tag, its value as a part of the message, and the place after it.
#[derive(Clone, Copy)]
pub(crate) struct RegisterAt<'a> {
    pub tag: Tag,
    pub value: &'a [u8],
    pub end: usize,
}

impl<'a> RegisterAt<'a> {
    // The register, its value copied out of the message.
    pub(crate) fn kept(&self) -> Register
        ensures { result ≡ kept_at (shown self.now) }
    {
        Register {
            stamp: self.tag.stamp,
            desk: self.tag.desk,
            value: Value::of(self.value),
        }
    }
}

// The register, which stands where `stands` isn't 0; it ends where its value does.
pub(crate) fn read_register<'a>(
    config: &Config,
    msg: &'a [u8],
    stands: u64,
    at: usize,
) -> Result<RegisterAt<'a>, Refusal>
    requires { at ≤ length msg.now }
    ensures { (on_ok shown result ≡ register_answer config.now msg.now stands (at_place at)) × IfOk result (λ r. r.end ≤ length msg.now) }
{
    let width = config.stamp_bytes() as usize;
    let stamp = read_number(msg, stands, width, 1, config.most_stamp(), at)?;
    let desk = read_number(msg, stands, 2, 1, MOST_TWO, stamp.at)?;
    let length = read_number(msg, stands, 1, 0, u64::from(MOST_VALUE), desk.at)?;
    let end = skip(msg, length.x as usize, length.at)?;
    Ok(RegisterAt {
        tag: Tag {
            stamp: stamp.x as u32,
            desk: desk.x as u16,
        },
        value: &msg[length.at..end],
        end,
    })
}
