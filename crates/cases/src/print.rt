// Answers as text.
ghost use Rattle.std.specs.Iterator.{IsFinite};

use config::Refusal;
use std::fmt;

// What a call hands back, or its refusal by its number.
#[derive(Drop)]
pub(crate) struct Answer<T>(pub Result<T, Refusal>);

impl Answer<&'static str> {
    // The answer to a call that hands back nothing.
    pub(crate) fn done(verdict: Result<(), Refusal>) -> Answer<&'static str> {
        Answer(verdict.map(|()| "ok"))
    }
}

impl<T: fmt::Display> fmt::Display for Answer<T> {
    fn fmt<W: fmt::Write>(&self, f: &mut fmt::Formatter<W>) -> fmt::Result {
        match &self.0 {
            Ok(x) => write!(f, "{x}"),
            Err(refusal) => write!(f, "no {}", refusal.number()),
        }
    }
}

// The same as a C host gets it: a refusal is −1,000,000 less its number.
#[derive(Drop)]
pub(crate) struct Code<T>(pub Result<T, Refusal>);

impl<T: fmt::Display> fmt::Display for Code<T> {
    fn fmt<W: fmt::Write>(&self, f: &mut fmt::Formatter<W>) -> fmt::Result {
        match &self.0 {
            Ok(x) => write!(f, "{x}"),
            Err(refusal) => write!(f, "-{}", 1000000 + refusal.number()),
        }
    }
}

// Bytes in hex; `-` for none.
#[derive(Clone, Copy)]
pub(crate) struct Hex<'a>(pub &'a [u8]);

impl fmt::Display for Hex<'_> {
    fn fmt<W: fmt::Write>(&self, f: &mut fmt::Formatter<W>) -> fmt::Result {
        if self.0.is_empty() {
            return f.write_str("-");
        }
        for byte in self.0 {
            write!(f, "{byte:02X}")?;
        }
        Ok(())
    }
}

// Numbers with commas between them; `-` for none.
pub(crate) fn commas<W: fmt::Write, I: Iterator<Item = u16> + Drop>(
    f: &mut fmt::Formatter<W>,
    mut numbers: I,
) -> fmt::Result
    requires can { I.can_next numbers }
    requires ends { IsFinite (I.remaining numbers) }
{
    let Some(first) = numbers.next() else {
        return f.write_str("-");
    };
    write!(f, "{first}")?;
    for x in numbers {
        write!(f, ",{x}")?;
    }
    Ok(())
}
