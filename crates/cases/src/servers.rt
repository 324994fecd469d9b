// The calls of a server, each with its answer.
use super::buffer::answer_written;
use super::print::Answer;
use super::record::ServerRecord;
use script::ServerCall;
use server::Server;
use std::io;

// A server, and whether it has crashed, which changes no record.
#[derive(Clone, Copy)]
pub(crate) struct Post {
    pub server: Server,
    pub crashed: bool,
}

impl Post {
    // Makes a call and answers it. Of a server that has crashed only the record is shown; another crash has no effect.
    pub(crate) fn call(
        &mut self,
        out: &impl Print,
        call: ServerCall,
        bytes: &[u8],
    ) -> io::Result<()> {
        match call {
            ServerCall::Record => self.show(out),
            ServerCall::Crash => {
                self.crashed = true;
                out.print("ok")
            }
            _ if self.crashed => out.print("crashed"),
            ServerCall::Share(at, len) => {
                answer_written(out, at, len, |space, at| self.server.share(space, at))
            }
            ServerCall::Serve(at, len) => answer_written(out, at, len, |space, at| {
                let served = self.server.serve(bytes, space, at);
                self.server = served.server;
                served.answer
            }),
            ServerCall::Transfer(taker, amount) => {
                let answer = self.server.transfer(taker, amount);
                self.server = answer.server;
                out.print(Answer::done(answer.verdict))
            }
        }
    }

    // The record of a server that has crashed says so.
    fn show(&self, out: &impl Print) -> io::Result<()> {
        out.print(ServerRecord(&self.server))?;
        if self.crashed {
            out.print(" crashed")?;
        }
        Ok(())
    }
}
