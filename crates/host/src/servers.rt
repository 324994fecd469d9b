// A server's calls for a C host (paper 01, "Server"). A record goes in by value and comes back by value beside the number of the answer.
ghost use Rattle.std.specs.Prelude.{◌≡◌};
ghost use Rattle.config.specs.Cluster.{house_of};
ghost use Rattle.server.specs.Servers.{open_of};
ghost use Rattle.server.specs.Shares.{share_of};
ghost use Rattle.server.specs.Transfers.{transfer_of};
ghost use Rattle.server.specs.Serves.{serve_of};
ghost use Rattle.host.specs.Codes.{number_code};
ghost use Rattle.host.specs.Calls.{server_code, served_code};

use super::code::of_answer;
use server::{Server, ServerAnswer};

// 0, or a refusal; and the record changed, or as it was where the answer is a refusal.
#[repr(C)]
#[derive(Clone, Copy)]
pub struct AnsweredServer {
    pub answer: i64,
    pub server: Server,
}

impl From<ServerAnswer> for AnsweredServer {
    ghost from_gives = { λ a r. r ≡ server_code a };

    fn from(answer: ServerAnswer) -> AnsweredServer {
        let ServerAnswer { verdict, server } = answer;
        AnsweredServer {
            answer: of_answer(verdict),
            server,
        }
    }
}

// The same of serve; and the place after the reply, or the place given where nothing is written.
#[repr(C)]
#[derive(Clone, Copy)]
pub struct AnsweredServe {
    pub answer: i64,
    pub end: u64,
    pub server: Server,
}

// A fresh record for server `number` of n, of which f may crash and which start with the weights listed.
#[unsafe(no_mangle)]
pub extern "C" fn tovridsa_open_server(
    n: u64,
    f: u64,
    number: u64,
    starts: &[u64],
) -> AnsweredServer
    ensures { result ≡ server_code (open_of (house_of n f starts.now) number) }
{
    AnsweredServer::from(Server::open(n, f, number, starts))
}

// Gives `amount` to `taker`.
#[unsafe(no_mangle)]
pub extern "C" fn tovridsa_transfer(server: Server, taker: u64, amount: u64) -> AnsweredServer
    ensures { result ≡ server_code (transfer_of server taker amount) }
{
    let mut server = server;
    let verdict = server.give(taker, amount);
    AnsweredServer {
        answer: of_answer(verdict),
        server,
    }
}

// Writes a share into a buffer from a place on: the place after it.
#[unsafe(no_mangle)]
pub extern "C" fn tovridsa_share(server: Server, out: &mut [u8], at: usize) -> i64
    ensures { (result ≡ number_code (share_of server out.old at).answer) × (out.new ≡ (share_of server out.old at).out) }
{
    of_answer(server.share(out, at))
}

// Joins what a request or a share carries, and writes the reply to a request into a buffer from a place on.
#[unsafe(no_mangle)]
pub extern "C" fn tovridsa_serve(
    server: Server,
    msg: &[u8],
    out: &mut [u8],
    at: usize,
) -> AnsweredServe
    ensures { (result ≡ served_code (serve_of server msg.now out.old at) at) × (out.new ≡ (serve_of server msg.now out.old at).out) }
{
    let mut server = server;
    let answer = server.serve_lent(msg, out, at);
    AnsweredServe {
        answer: of_answer(answer.map(|_| ())),
        end: answer.unwrap_or(at as u64),
        server,
    }
}
