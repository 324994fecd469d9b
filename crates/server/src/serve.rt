// A server takes a request or a share (paper 01, "Server": Serve).
ghost use Rattle.std.specs.Prelude.{◌≡◌, ◌<◌, IfOk};
ghost use Rattle.ledger.specs.Ledgers.{Shaped};
ghost use Rattle.message.specs.Answers.{receive_of};
ghost use Rattle.server.specs.Serves.{stray as stray_of, reply_by, serve_of};
ghost use Rattle.server.specs.Servings.{considered_of, answer_in, known_in, more_in, light_of};

use super::record::Server;
use config::Refusal;
use message::{Envelope, REPLY, REQUEST, SHARE};
use reader::receive_into;
use replica::{Register, Replica};
use writer::send;

// What serve hands back: the place after the reply, or the place given where nothing is written; and the record after joining, or as it was where the
// answer is a refusal. A host gets the record either way, so the two stand side by side.
#[derive(Clone, Copy)]
pub struct Served {
    pub answer: Result<u64, Refusal>,
    pub server: Server,
}

// What becomes of a message that is not refused: it brings no transfer that the server lacks, or some.
#[derive(Clone, Copy, Debug, PartialEq, Eq)]
pub(crate) enum Serving {
    Known,
    More,
}

// A message that is not refused.
#[derive(Clone, Copy)]
pub(crate) struct Considered {
    pub envelope: Envelope,
    pub serving: Serving,
}

impl Server {
    // Joins what a request or a share carries, and writes the reply to a request into a buffer from a place on: 1 for the record, the message checks, 7
    // for a reply or a request for another server, 6 where the replicas do not join, 13 where the reply does not fit.
    pub fn serve(self, msg: &[u8], out: &mut [u8], at: usize) -> Served
        ensures { (result.answer ≡ (serve_of self msg.now out.old at).answer) × (result.server ≡ (serve_of self msg.now out.old at).server) × (out.new ≡ (serve_of self msg.now out.old at).out) }
    {
        let mut server = self;
        let answer = server.serve_lent(msg, out, at);
        Served { answer, server }
    }

    // The same on a record that is lent, which is left as it was where the answer is a refusal. The record is tested where it is known what comes of the
    // message: by the writer, where a reply is written.
    #[tactic(auto, using(crate::proofs::Servings::serving))]
    pub fn serve_lent(&mut self, msg: &[u8], out: &mut [u8], at: usize) -> Result<u64, Refusal>
        ensures { (result ≡ (serve_of self.old msg.now out.old at).answer) × (self.new ≡ (serve_of self.old msg.now out.old at).server) × (out.new ≡ (serve_of self.old msg.now out.old at).out) }
    {
        if !self.config.has(self.number) {
            return Err(Refusal::BadHouse);
        }
        let mut told = Replica::fresh();
        match self.consider(msg, &mut told) {
            Err(r) => {
                if self.replica.fits(&self.config) {
                    return Err(r);
                }
                Err(Refusal::BadHouse)
            }
            Ok(considered) => {
                told.register = self.replica.register.higher(told.register);
                match considered.serving {
                    Serving::Known => {
                        self.serve_known(&considered.envelope, told.register, out, at)
                    }
                    Serving::More => self.serve_more(&considered.envelope, &mut told, out, at),
                }
            }
        }
    }

    // What becomes of a message, whose replica goes into one that is lent: its checks, 7 for a reply or a request for another server, 6 where it knows more of
    // the server's own transfers than it made or does not join.
    #[tactic(auto, using(crate::proofs::Considered::considering))]
    fn consider(&self, msg: &[u8], told: &mut Replica) -> Result<Considered, Refusal>
        requires { self.now.number < 16 }
        ensures { (result ≡ considered_of self.now msg.now) × IfOk result (λ c. (told.new ≡ (receive_of self.now.config msg.now).replica) × Shaped self.now.replica.ledger) }
    {
        let taken = receive_into(&self.config, msg, &mut told.ledger)?;
        told.register = taken.register;
        let envelope = taken.envelope;
        if self.stray(&envelope) {
            return Err(Refusal::Stray);
        }
        let own = self.number as usize;
        if self.replica.ledger.counts[own] < told.ledger.counts[own] {
            return Err(Refusal::Clash);
        }
        let compared = self.replica.compare(told, self.config.n)?;
        let serving = if compared.lacks {
            Serving::More
        } else {
            Serving::Known
        };
        Ok(Considered { envelope, serving })
    }

    // A message that brings no transfer leaves the ledger as it is. The register held is tested here, and the ledger with the register that is held
    // afterwards where that is sent.
    #[tactic(auto, unfolding(crate::specs::Servings::known_in, crate::specs::Servings::settled))]
    fn serve_known(
        &mut self,
        envelope: &Envelope,
        after: Register,
        out: &mut [u8],
        at: usize,
    ) -> Result<u64, Refusal>
        requires { self.old.number < 16 }
        ensures { (result ≡ (known_in self.old envelope.now after out.old at).answer) × (self.new ≡ (known_in self.old envelope.now after out.old at).server) × (out.new ≡ (known_in self.old envelope.now after out.old at).out) }
    {
        if !self.replica.register.fits(&self.config) {
            return Err(Refusal::BadHouse);
        }
        let replica = Replica {
            ledger: self.replica.ledger,
            register: after,
        };
        let end = self.answered(envelope, &replica, out, at)?;
        self.replica.register = after;
        Ok(end)
    }

    // A message that brings transfers: both ledgers together, made where the message's lies, take the place of the server's once nothing can refuse them.
    #[tactic(auto, unfolding(crate::specs::Servings::more_in, crate::specs::Servings::settled))]
    fn serve_more(
        &mut self,
        envelope: &Envelope,
        told: &mut Replica,
        out: &mut [u8],
        at: usize,
    ) -> Result<u64, Refusal>
        requires { self.old.number < 16 }
        ensures { (result ≡ (more_in self.old envelope.now told.old out.old at).answer) × (self.new ≡ (more_in self.old envelope.now told.old out.old at).server) × (out.new ≡ (more_in self.old envelope.now told.old out.old at).out) }
    {
        if !self.replica.fits(&self.config) {
            return Err(Refusal::BadHouse);
        }
        told.ledger.take(&self.replica.ledger);
        let end = self.answered(envelope, told, out, at).map_err(light)?;
        self.replica = *told;
        Ok(end)
    }

    // What this server answers once it holds a replica: the place given for a share, and the place after the reply to a request. 1 where a party may not hold
    // the replica, 13 where the reply does not fit.
    #[tactic(auto, unfolding(crate::specs::Servings::answer_in))]
    fn answered(
        &self,
        envelope: &Envelope,
        replica: &Replica,
        out: &mut [u8],
        at: usize,
    ) -> Result<u64, Refusal>
        requires { self.now.number < 16 }
        ensures { (result ≡ (answer_in self.now.config self.now.number envelope.now replica.now out.old at).answer) × (out.new ≡ (answer_in self.now.config self.now.number envelope.now replica.now out.old at).out) }
    {
        if envelope.kind != SHARE {
            return send(&self.config, &self.reply(envelope), replica, out, at);
        }
        if !replica.fits(&self.config) {
            return Err(Refusal::BadHouse);
        }
        Ok(at as u64)
    }

    // The reply to a request: it has the request's desk, round and note.
    fn reply(&self, request: &Envelope) -> Envelope
        requires { self.now.number < 16 }
        ensures { result ≡ reply_by self.now.number request.now }
    {
        Envelope {
            kind: REPLY,
            server: self.number as u8,
            desk: request.desk,
            round: request.round,
            note: request.note,
        }
    }

    // Whether a message is not for this server: a reply, or a request for another one.
    #[tactic(auto, unfolding(crate::specs::Serves::stray))]
    fn stray(&self, envelope: &Envelope) -> bool
        ensures { result ≡ stray_of self.now envelope.now }
    {
        if envelope.kind == SHARE {
            return false;
        }
        envelope.kind != REQUEST || u64::from(envelope.server) != self.number
    }
}

// Why both replicas together are refused, of which each fits: 13, or else they are light, which is 6.
#[tactic(auto, unfolding(crate::specs::Servings::light_of))]
fn light(refusal: Refusal) -> Refusal
    ensures { result ≡ light_of refusal }
{
    match refusal {
        Refusal::Narrow => Refusal::Narrow,
        _ => Refusal::Clash,
    }
}
