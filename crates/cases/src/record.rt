// Records on one line, for a person to read.
use super::print::{Answer, Hex, commas};
use config::Config;
use desk::{Desk, Operation};
use ledger::Ledger;
use replica::Replica;
use server::Server;
use std::fmt;

#[derive(Clone, Copy)]
pub(crate) struct ServerRecord<'a>(pub &'a Server);

impl fmt::Display for ServerRecord<'_> {
    fn fmt<W: fmt::Write>(&self, f: &mut fmt::Formatter<W>) -> fmt::Result {
        let server = self.0;
        let held = Held(&server.config, &server.replica);
        write!(f, "server {} {held}", server.number)
    }
}

#[derive(Clone, Copy)]
pub(crate) struct DeskRecord<'a>(pub &'a Desk);

impl fmt::Display for DeskRecord<'_> {
    fn fmt<W: fmt::Write>(&self, f: &mut fmt::Formatter<W>) -> fmt::Result {
        let desk = self.0;
        let held = Held(&desk.config, &desk.replica);
        write!(f, "desk {} {held} round {}", desk.number, desk.round)?;
        write!(f, " operation {}", Progress(&desk.operation))
    }
}

// What servers and desks both hold.
#[derive(Clone, Copy)]
struct Held<'a>(&'a Config, &'a Replica);

impl fmt::Display for Held<'_> {
    fn fmt<W: fmt::Write>(&self, f: &mut fmt::Formatter<W>) -> fmt::Result {
        let Held(config, replica) = self;
        let register = &replica.register;
        let value = Hex(register.value.bytes());
        write!(f, "n {} f {} starts {}", config.n, config.f, Starts(config))?;
        write!(f, " tag {} {} value {value}", register.stamp, register.desk)?;
        write!(f, " weights{}", Weights(config, &replica.ledger))?;
        write!(f, " counts{}", Counts(config, &replica.ledger))?;
        write!(f, " cells{}", Cells(&replica.ledger))
    }
}

// What a mode says of an operation.
fn mode_of(mode: u32) -> &'static str {
    match mode {
        0 => "none",
        1 => "running",
        _ => "ended",
    }
}

pub(crate) fn kind_of(kind: u16) -> &'static str {
    match kind {
        0 => "none",
        1 => "read",
        _ => "write",
    }
}

// An operation, as far as it has come.
#[derive(Clone, Copy)]
struct Progress<'a>(&'a Operation);

impl fmt::Display for Progress<'_> {
    fn fmt<W: fmt::Write>(&self, f: &mut fmt::Formatter<W>) -> fmt::Result {
        let Operation {
            mode,
            note,
            restarts,
            kind,
            phase,
            answered,
            value,
            chosen,
        } = self.0;
        write!(f, "{} {}", mode_of(*mode), kind_of(*kind))?;
        write!(f, " phase {phase} note {note} restarts {restarts}")?;
        write!(f, " answered {}", Map(*answered))?;
        write!(f, " writing {}", Hex(value.bytes()))?;
        write!(f, " chosen {} {}", chosen.stamp, chosen.desk)?;
        write!(f, " {}", Hex(chosen.value.bytes()))
    }
}

// The start weight of each server.
#[derive(Clone, Copy)]
struct Starts<'a>(&'a Config);

impl fmt::Display for Starts<'_> {
    fn fmt<W: fmt::Write>(&self, f: &mut fmt::Formatter<W>) -> fmt::Result {
        let config = self.0;
        commas(f, config.starts.iter().copied().take(config.n as usize))
    }
}

// The weight of each server.
#[derive(Clone, Copy)]
pub(crate) struct Weights<'a>(pub &'a Config, pub &'a Ledger);

impl fmt::Display for Weights<'_> {
    fn fmt<W: fmt::Write>(&self, f: &mut fmt::Formatter<W>) -> fmt::Result {
        let Weights(config, ledger) = self;
        for server in 0..config.n {
            write!(f, " {}", Answer(ledger.weight(config, server)))?;
        }
        Ok(())
    }
}

// How many transfers each server made.
#[derive(Clone, Copy)]
struct Counts<'a>(&'a Config, &'a Ledger);

impl fmt::Display for Counts<'_> {
    fn fmt<W: fmt::Write>(&self, f: &mut fmt::Formatter<W>) -> fmt::Result {
        let Counts(config, ledger) = self;
        for count in ledger.counts.iter().take(config.n as usize) {
            write!(f, " {count}")?;
        }
        Ok(())
    }
}

// What each server gave each other one: giver, taker and amount.
#[derive(Clone, Copy)]
struct Cells<'a>(&'a Ledger);

impl fmt::Display for Cells<'_> {
    fn fmt<W: fmt::Write>(&self, f: &mut fmt::Formatter<W>) -> fmt::Result {
        let mut shown = false;
        for (k, amount) in self.0.cells.iter().enumerate() {
            if *amount != 0 {
                write!(f, " {}>{}:{amount}", k / 16, k % 16)?;
                shown = true;
            }
        }
        if !shown {
            f.write_str(" -")?;
        }
        Ok(())
    }
}

// The servers of a map.
#[derive(Clone, Copy)]
struct Map(u16);

impl fmt::Display for Map {
    fn fmt<W: fmt::Write>(&self, f: &mut fmt::Formatter<W>) -> fmt::Result {
        let map = self.0;
        commas(f, (0..16).filter(|server| (map >> *server) & 1 == 1))
    }
}
