// Drives one cluster by a script: a line of standard output for each command on a line of standard input. docs/SCRIPTS.md has the commands.
#![tactic(auto)]

mod buffer;
mod cluster;
mod desks;
mod house;
mod line;
mod print;
mod queries;
mod reading;
mod record;
mod servers;
mod writing;

use cluster::Cluster;
use line::Line;
use script::House;
use std::io::{self, Read};

// A cluster, and the line that is being read for it.
#[derive(Drop)]
struct Session {
    cluster: Cluster,
    line: Line,
}

impl Session {
    // Takes what was read: answers each line that it ends, and keeps the rest.
    fn take(&mut self, out: &impl Print, read: &[u8]) -> io::Result<()> {
        for part in read.split_inclusive(|c| *c == b'\n') {
            match part.strip_suffix(b"\n") {
                Some(end) => {
                    self.line.add(end);
                    self.finish(out)?;
                }
                None => self.line.add(part),
            }
        }
        Ok(())
    }

    // Answers what has come of the line.
    fn finish(&mut self, out: &impl Print) -> io::Result<()> {
        self.cluster.answer_line(out, self.line.characters())?;
        self.line.clear();
        Ok(())
    }
}

// Reads what is there, turn by turn. A proved loop has to end, and nothing says that the input does: so the turns are counted, up to a number that no run
// uses up. At the input's end the last line may lack its line feed.
fn main(rt: HostRuntime) -> io::Result<()> {
    let mut session = Session {
        cluster: Cluster::fresh(House::level(0, 0)),
        line: Line::empty(),
    };
    let mut input = rt.reader();
    for _ in 0..u64::MAX {
        let mut buffer = [0; 4096];
        let n = input.read(&mut buffer)?;
        if n == 0 {
            return session.finish(&rt);
        }
        session.take(&rt, &buffer[..n])?;
    }
    Ok(())
}
