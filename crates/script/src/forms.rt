// The forms of the lines, and which of them a line has.
use super::command::{Command, DeskCall, Query, ServerCall};
use super::house::{House, List};
use super::text::{Words, decimal};

// What a line with a form asks for. The table has these and no functions: each arm of `command` takes what its form needs, and functions of one type for all
// of them would be no plainer.
#[derive(Clone, Copy)]
enum Form {
    House,
    BeginRead,
    BeginWrite,
    Ask,
    Share,
    Serve,
    Hear,
    Result,
    Margin,
    Drop,
    Transfer,
    Crash,
    Check,
    Weight,
    Quorum,
    Seats,
    Named,
    Value,
    RecordServer,
    RecordDesk,
    Message,
}

// The table of the forms: `#` stands for a number, `@` for a list of numbers, `*` for bytes in hex, which are the last of a line, and any other word for
// itself. A message with a list stands before one without, which has the form of both.
const FORMS: [(&[u8], Form); 23] = [
    (b"house # #", Form::House),
    (b"house # # starts @", Form::House),
    (b"begin # read #", Form::BeginRead),
    (b"begin # write # *", Form::BeginWrite),
    (b"ask # # # #", Form::Ask),
    (b"share # # #", Form::Share),
    (b"serve # # # *", Form::Serve),
    (b"hear # *", Form::Hear),
    (b"result #", Form::Result),
    (b"margin #", Form::Margin),
    (b"drop #", Form::Drop),
    (b"transfer # # #", Form::Transfer),
    (b"crash #", Form::Crash),
    (b"check *", Form::Check),
    (b"weight # *", Form::Weight),
    (b"quorum # *", Form::Quorum),
    (b"seats *", Form::Seats),
    (b"named #", Form::Named),
    (b"value *", Form::Value),
    (b"record server #", Form::RecordServer),
    (b"record desk #", Form::RecordDesk),
    (b"message # # starts @ *", Form::Message),
    (b"message # # *", Form::Message),
];

// What a line has in the places of its form: its numbers, first to last and then 0, its list, and the words of its bytes.
#[derive(Clone, Copy)]
struct Met<'a> {
    numbers: [u64; 4],
    list: Option<List>,
    bytes: Words<'a>,
}

impl Met<'_> {
    // The house that a line gives, which begins level where the line has no list.
    fn house(&self) -> House {
        let [n, f, ..] = self.numbers;
        match self.list {
            Some(starts) => House { n, f, starts },
            None => House::level(n, f),
        }
    }
}

// What a line asks for, by the first form of the table that it has, and the words of its bytes.
pub(crate) fn parse(line: Words) -> Option<(Command, Words)> {
    for (text, form) in &FORMS {
        if let Some(met) = meet(Words(*text), line) {
            return Some((command(*form, &met)?, met.bytes));
        }
    }
    None
}

// A line beside a form, word by word.
fn meet<'a>(form: Words, line: Words<'a>) -> Option<Met<'a>> {
    let mut numbers = [0; 4];
    let mut places = numbers.iter_mut();
    let mut list = None;
    let mut words = line;
    for part in form {
        let bytes = words;
        let word = words.next()?;
        match part {
            b"#" => *places.next()? = decimal(word)?,
            b"@" => list = Some(List::of(word)?),
            b"*" => return Some(Met {
                numbers,
                list,
                bytes,
            }),
            _ if word == part => {}
            _ => return None,
        }
    }
    if words.next().is_some() {
        return None;
    }
    Some(Met {
        numbers,
        list,
        bytes: words,
    })
}

// The command of a line that has a form, if its numbers fit their types.
fn command(form: Form, met: &Met) -> Option<Command> {
    let [a, b, c, d] = met.numbers;
    Some(match form {
        Form::House => Command::House(met.house()),
        Form::BeginRead => Command::Desk(a, DeskCall::BeginRead(u32::try_from(b).ok()?)),
        Form::BeginWrite => Command::Desk(a, DeskCall::BeginWrite(u32::try_from(b).ok()?)),
        Form::Ask => Command::Desk(a, DeskCall::Ask(b, c, d)),
        Form::Share => Command::Server(a, ServerCall::Share(b, c)),
        Form::Serve => Command::Server(a, ServerCall::Serve(b, c)),
        Form::Hear => Command::Desk(a, DeskCall::Hear),
        Form::Result => Command::Desk(a, DeskCall::Result),
        Form::Margin => Command::Desk(a, DeskCall::Margin),
        Form::Drop => Command::Desk(a, DeskCall::Drop),
        Form::Transfer => Command::Server(a, ServerCall::Transfer(b, c)),
        Form::Crash => Command::Server(a, ServerCall::Crash),
        Form::Check => Command::Query(Query::Check),
        Form::Weight => Command::Query(Query::Weight(a)),
        Form::Quorum => Command::Query(Query::Quorum(a)),
        Form::Seats => Command::Query(Query::Seats),
        Form::Named => Command::Query(Query::Named(u16::try_from(a).ok()?)),
        Form::Value => Command::Query(Query::Value),
        Form::RecordServer => Command::Server(a, ServerCall::Record),
        Form::RecordDesk => Command::Desk(a, DeskCall::Record),
        Form::Message => Command::Message(met.house()),
    })
}
