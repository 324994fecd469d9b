// The steps that the reader is made of: a number, and the bytes of a value.
ghost use Rattle.std.specs.Prelude.{◌≡◌, ◌+◌, ◌^◌, ◌≤◌, ◌<◌, length, IfOk};
ghost use Rattle.format.specs.Bytes.{bit as bit_of};
ghost use Rattle.message.specs.Cursors.{number_at, read_bytes as read_bytes_of, read_number as read_number_of, skip as skip_of};
ghost use Rattle.reader.specs.Steps.{at_place, read_answer, place_answer};

use config::Refusal;

// A number that was read, 0 where none stands, and the place after it.
#[derive(Clone, Copy)]
pub(crate) struct Read {
    pub x: u64,
    pub at: usize,
}

// The most that two bytes hold, and four.
pub(crate) const MOST_TWO: u64 = u16::MAX as u64;

pub(crate) const MOST_FOUR: u64 = u32::MAX as u64;

// Bit k of a map, a number as in the byte table (`Rattle.format.specs.Bytes`).
#[tactic(auto, unfolding(format::specs::Bytes::bit))]
pub(crate) fn bit(map: u64, k: usize) -> u64
    requires { k < 16 }
    ensures { (result ≡ bit_of map k) × (result ≤ 1) }
{
    (map >> (k as u32)) % 2
}

// The number in some bytes, high byte first.
fn number_in(bytes: &[u8]) -> u64
    requires { length bytes.now ≤ 8 }
    ensures { (result ≡ number_at bytes.now 0 (length bytes.now)) × (result < 256 ^ length bytes.now) }
{
    let mut x: u64 = 0;
    for byte in bytes {
        x = x * 256 + u64::from(*byte);
    }
    x
}

// A number of `width` bytes, from `low` to `high`.
#[tactic(auto, using(crate::proofs::Numbers::number_part), unfolding(crate::specs::Steps::outcome, message::specs::Cursors::read_bytes, message::specs::Cursors::within))]
fn read_bytes(msg: &[u8], width: usize, low: u64, high: u64, at: usize) -> Result<Read, Refusal>
    requires { (at ≤ length msg.now) × (width ≤ 8) }
    ensures { (result ≡ read_answer (read_bytes_of msg.now width low high (at_place at))) × IfOk result (λ r. (r.at ≤ length msg.now) × (r.x ≤ high)) }
{
    if msg.len() - at < width {
        return Err(Refusal::Torn);
    }
    let end = at + width;
    let x = number_in(&msg[at..end]);
    if x < low || high < x {
        return Err(Refusal::OddField);
    }
    Ok(Read { x, at: end })
}

// A number of `width` bytes from `low` to `high` that stands where `stands` isn't 0, and else is 0. `stands` is a bit of the map, as in the byte table
// (`Rattle.format.specs.Table`).
#[tactic(auto, unfolding(crate::specs::Steps::outcome, message::specs::Cursors::read_number))]
pub(crate) fn read_number(
    msg: &[u8],
    stands: u64,
    width: usize,
    low: u64,
    high: u64,
    at: usize,
) -> Result<Read, Refusal>
    requires { (at ≤ length msg.now) × (width ≤ 8) }
    ensures { (result ≡ read_answer (read_number_of msg.now stands width low high (at_place at))) × IfOk result (λ r. (r.at ≤ length msg.now) × (r.x ≤ high)) }
{
    if stands == 0 {
        return Ok(Read { x: 0, at });
    }
    read_bytes(msg, width, low, high, at)
}

// The place after the bytes of a value.
#[tactic(auto, unfolding(crate::specs::Steps::outcome, message::specs::Cursors::skip))]
pub(crate) fn skip(msg: &[u8], width: usize, at: usize) -> Result<usize, Refusal>
    requires { at ≤ length msg.now }
    ensures { (result ≡ place_answer (skip_of msg.now width (at_place at))) × IfOk result (λ end. (end ≡ at + width) × (end ≤ length msg.now)) }
{
    if msg.len() - at < width {
        return Err(Refusal::Torn);
    }
    Ok(at + width)
}
