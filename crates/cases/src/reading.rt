// The answer to a message: what the reader finds in it, what the ledger in it says, and whether the writer makes the same bytes again.
ghost use Rattle.std.specs.Prelude.{◌≤◌, length};

use super::print::{Answer, Hex};
use super::record::Weights;
use super::writing::is_written_again;
use config::{Config, Refusal};
use message::{Envelope, Fields};
use reader::{check, fields, receive, value};
use replica::Tag;
use std::io;

// The number of a verdict; 0 where it accepts, as a transcript prints it (docs/SCRIPTS.md).
fn number_of(verdict: Result<(), Refusal>) -> u64 {
    verdict.err().map_or(0, Refusal::number)
}

// The answer to a message; `longer` is the message with a zero byte more.
pub(crate) fn answer_message(out: &impl Print, config: &Config, longer: &[u8]) -> io::Result<()>
    requires { (1 ≤ length longer.now) × (length longer.now ≤ 2049) }
{
    let msg = &longer[..longer.len() - 1];
    let found = check(config, msg);
    let part = value(config, msg);
    match (found, fields(config, msg)) {
        (Ok(()), Ok(read)) => {
            accepted(out, config, &read, part)?;
            tried(out, config, msg, longer)?;
            again(out, config, msg)
        }
        // All three calls refuse the message, by the same number.
        (Err(r), Err(s)) if r == s && part.is_empty() => out.print(Answer::done(found)),
        _ => print!(out; "no {} MISMATCH", number_of(found)),
    }
}

// The fields of a message.
fn accepted(out: &impl Print, config: &Config, read: &Fields, part: &[u8]) -> io::Result<()> {
    let Envelope {
        kind,
        server,
        desk,
        round,
        note,
    } = read.envelope;
    let Tag {
        stamp,
        desk: writer,
    } = read.tag;
    print!(out; "ok kind {kind} server {server} desk {desk} round {round}")?;
    print!(out; " tag {stamp} {writer} note {note} value {}", Hex(part))?;
    print!(out; " weights{}", Weights(config, &read.ledger))
}

// The check of the message cut short, at every length, and of the message with a zero byte more.
fn tried(out: &impl Print, config: &Config, msg: &[u8], longer: &[u8]) -> io::Result<()> {
    let length = msg.len();
    let passed = number_of(check(config, longer));
    print!(out; " cut {} of {length} longer {passed}", torn(config, msg))
}

// How many of the message's proper prefixes are torn.
fn torn(config: &Config, msg: &[u8]) -> usize {
    (0..msg.len())
        .filter(|k| check(config, &msg[..*k]) == Err(Refusal::Torn))
        .count()
}

fn again(out: &impl Print, config: &Config, msg: &[u8]) -> io::Result<()>
    requires { length msg.now ≤ 2048 }
{
    match receive(config, msg) {
        Ok(got) if is_written_again(config, &got, msg) => print!(out; " again same"),
        _ => print!(out; " again other"),
    }
}
