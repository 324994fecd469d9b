// The cluster that a script drives: its servers, the desks that it has named, and what a line does to them.
ghost use Rattle.std.specs.Prelude.{◌<◌, ◌≤◌, length, IfSome};

use super::desks::call_desk;
use super::house::{config_of, open_desk, open_server};
use super::print::Answer;
use super::queries::ask_about;
use super::reading::answer_message;
use super::servers::Post;
use config::Refusal;
use desk::Desk;
use script::{Command, DeskCall, Fault, House, SPACE, ServerCall, understand};
use std::{array, io};

// Server i stands at i, and a desk at the first place that was free. Before an accepted `house` n is 0.
#[derive(Clone, Copy)]
pub(crate) struct Cluster {
    house: House,
    posts: [Post; 16],
    desks: [Option<Desk>; 16],
}

impl Cluster {
    // A cluster with every server fresh and no desk. Where the house is refused no record of it is accepted.
    pub(crate) fn fresh(house: House) -> Cluster {
        Cluster {
            house,
            posts: array::from_fn(|i| Post {
                server: open_server(&house, i as u64).server,
                crashed: false,
            }),
            desks: [None; 16],
        }
    }

    // Answers a line, unless it says nothing. The array has a 0 after the line's bytes.
    pub(crate) fn answer_line(&mut self, out: &impl Print, line: &[u8]) -> io::Result<()> {
        let mut bytes = [0; SPACE];
        match understand(line, &mut bytes) {
            Ok(None) => return Ok(()),
            Ok(Some(read)) => self.obey(out, read.command, &bytes[..=read.count])?,
            Err(Fault::Beyond) => out.print("bounds")?,
            Err(Fault::Unreadable) => out.print("what")?,
        }
        out.print("\n")
    }

    // The line's bytes are `longer` less its last one.
    fn obey(&mut self, out: &impl Print, command: Command, longer: &[u8]) -> io::Result<()>
        requires { (1 ≤ length longer.now) × (length longer.now ≤ 2049) }
    {
        let bytes = &longer[..longer.len() - 1];
        match command {
            Command::House(given) => self.open(out, given),
            Command::Desk(number, call) => self.on_desk(out, number, call, bytes),
            Command::Server(number, call) => self.on_server(out, number, call, bytes),
            Command::Query(query) => ask_about(out, &config_of(&self.house), query, bytes),
            Command::Message(given) => answer_message(out, &config_of(&given), longer),
        }
    }

    // A fresh cluster, or the one before where the house is refused.
    fn open(&mut self, out: &impl Print, given: House) -> io::Result<()> {
        let verdict = open_server(&given, 0).verdict;
        if verdict.is_ok() {
            *self = Cluster::fresh(given);
        }
        out.print(Answer::done(verdict))
    }

    // A desk is opened when it is first named.
    fn on_desk(
        &mut self,
        out: &impl Print,
        number: u64,
        call: DeskCall,
        bytes: &[u8],
    ) -> io::Result<()> {
        let opened = open_desk(&self.house, number);
        if opened.verdict.is_err() {
            return out.print(Answer::done(opened.verdict));
        }
        let Some(k) = self.place_for(number) else {
            return out.print("bounds");
        };
        call_desk(out, self.desks[k].get_or_insert(opened.desk), call, bytes)
    }

    // The place of a desk, or the first that is free for it.
    fn place_for(&self, number: u64) -> Option<usize>
        ensures { IfSome result (λ k. k < 16) }
    {
        self.desks
            .iter()
            .position(|desk| desk.is_some_and(|d| d.number == number))
            .or_else(|| self.desks.iter().position(Option::is_none))
    }

    fn on_server(
        &mut self,
        out: &impl Print,
        number: u64,
        call: ServerCall,
        bytes: &[u8],
    ) -> io::Result<()> {
        let config = config_of(&self.house);
        match self.posts.get_mut(number as usize) {
            Some(post) if config.has(number) => post.call(out, call, bytes),
            _ => out.print(Answer::done(Err(Refusal::BadHouse))),
        }
    }
}
