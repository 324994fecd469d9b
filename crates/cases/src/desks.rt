// The calls of a desk, each with its answer.
use super::buffer::answer_written;
use super::print::{Answer, Hex};
use super::record::{DeskRecord, kind_of};
use desk::{Desk, DeskAnswer, Hearing, Told};
use script::DeskCall;
use std::{fmt, io};

// Makes a call and answers it.
pub(crate) fn call_desk(
    out: &impl Print,
    desk: &mut Desk,
    call: DeskCall,
    bytes: &[u8],
) -> io::Result<()> {
    match call {
        DeskCall::BeginRead(note) => {
            let answer = desk.begin_read(note);
            out.print(kept(desk, answer))
        }
        DeskCall::BeginWrite(note) => {
            let answer = desk.begin_write(note, bytes);
            out.print(kept(desk, answer))
        }
        DeskCall::Ask(server, at, len) => {
            answer_written(out, at, len, |space, at| desk.ask(server, space, at))
        }
        DeskCall::Hear => {
            let heard = desk.hear(bytes);
            *desk = heard.desk;
            out.print(Answer(heard.hearing.map(word_of)))
        }
        DeskCall::Result => out.print(Answer(desk.result().map(Outcome))),
        DeskCall::Margin => out.print(Answer(desk.margin().map(Margin))),
        DeskCall::Drop => {
            let answer = desk.drop();
            out.print(kept(desk, answer))
        }
        DeskCall::Record => out.print(DeskRecord(desk)),
    }
}

// Keeps the record that a call left.
fn kept(desk: &mut Desk, answer: DeskAnswer) -> Answer<&'static str> {
    *desk = answer.desk;
    Answer::done(answer.verdict)
}

fn word_of(hearing: Hearing) -> &'static str {
    match hearing {
        Hearing::Taken => "ok",
        Hearing::Late => "late",
    }
}

// The kind, the tag, the restarts and the value of an operation that has ended.
#[derive(Clone, Copy)]
struct Outcome(Told);

impl fmt::Display for Outcome {
    fn fmt<W: fmt::Write>(&self, f: &mut fmt::Formatter<W>) -> fmt::Result {
        let told = &self.0;
        let register = &told.register;
        write!(
            f,
            "ok {} {} {}",
            kind_of(told.kind),
            register.stamp,
            register.desk
        )?;
        write!(f, " {} {}", told.restarts, Hex(register.value.bytes()))
    }
}

// Twice the weight of the servers that answered, less W.
#[derive(Clone, Copy)]
struct Margin(i64);

impl fmt::Display for Margin {
    fn fmt<W: fmt::Write>(&self, f: &mut fmt::Formatter<W>) -> fmt::Result {
        write!(f, "ok {}", self.0)
    }
}
