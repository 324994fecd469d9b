// A desk hears a message (paper 01, "Desk": Hear).
ghost use Rattle.std.specs.Prelude.{◌≡◌};
ghost use Rattle.desk.specs.Hears.{stray as stray_of, hear_of};
ghost use Rattle.desk.specs.Hearings.{listening_of};

use super::heed::marked;
use super::operation::RUNNING;
use super::record::{Desk, Heard, Hearing};
use config::Refusal;
use message::{Envelope, REPLY};
use reader::receive_into;
use replica::Replica;

// What becomes of a message that is not refused: it is late, or a reply on a larger ledger than the desk's, or on an equal one.
#[derive(Clone, Copy, Debug, PartialEq, Eq)]
pub(crate) enum Listening {
    Late,
    Larger,
    Equal,
}

impl Desk {
    // Takes a server's reply, which may start the operation over, end its phase or end it: 1 for the record, the message checks, 7 for anything but a
    // reply to this desk; "late" if no operation runs or the reply is of another round; 6 where the replicas do not join or the reply's ledger lacks a
    // transfer of the desk's, and 12 where a round or a stamp would pass its end.
    pub fn hear(self, msg: &[u8]) -> Heard
        ensures { result ≡ hear_of self msg.now }
    {
        let mut desk = self;
        let hearing = desk.listen(msg);
        Heard { hearing, desk }
    }

    // The same on a record that is lent, which is left as it was where the reply is late or refused. What of the record test is not about the replica comes
    // first, so that no message is read for a record that fails it; the rest is made once it is known which servers will have answered, and finds their
    // margin. The refusal of either is told before the message's.
    pub fn listen(&mut self, msg: &[u8]) -> Result<Hearing, Refusal>
        ensures { (result ≡ (hear_of self.old msg.now).hearing) × (self.new ≡ (hear_of self.old msg.now).desk) }
    {
        if !self.sound() {
            return Err(Refusal::BadHouse);
        }
        let mut told = Replica::fresh();
        let taken = receive_into(&self.config, msg, &mut told.ledger);
        let map = match &taken {
            Ok(taken) => marked(self.operation.answered, taken.envelope.server),
            Err(_) => self.operation.answered,
        };
        let margin = self.weighed_sound(map)?;
        let taken = taken?;
        told.register = taken.register;
        let joined = self.replica.register.higher(told.register);
        // Two lengths that the proof needs: joining with a ledger that has nothing more leaves arrays of these lengths as they were.
        prove_eq!(self.replica.ledger.counts[..].len(), 16);
        prove_eq!(self.replica.ledger.cells[..].len(), 256);
        match self.consider(&taken.envelope, &told)? {
            Listening::Late => Ok(Hearing::Late),
            Listening::Larger => self.restart(&told, joined),
            Listening::Equal => self.mark(joined, map, margin),
        }
    }

    // What becomes of a message that passes: 7 for anything but a reply to this desk, "late", 6 where it does not join or lacks a transfer of the desk's.
    #[tactic(auto, unfolding(crate::specs::Hearings::listening_of, crate::specs::Hears::timely))]
    fn consider(&self, envelope: &Envelope, told: &Replica) -> Result<Listening, Refusal>
        ensures { result ≡ listening_of self.now envelope.now told.now }
    {
        if self.stray(envelope) {
            return Err(Refusal::Stray);
        }
        if self.operation.mode != RUNNING || envelope.round != self.round {
            return Ok(Listening::Late);
        }
        let compared = self.replica.compare(told, self.config.n)?;
        if compared.ahead {
            return Err(Refusal::Clash);
        }
        if compared.lacks {
            return Ok(Listening::Larger);
        }
        Ok(Listening::Equal)
    }

    // Whether a message is not for this desk: anything but a reply, or a reply to another one.
    #[tactic(auto, unfolding(crate::specs::Hears::stray))]
    fn stray(&self, envelope: &Envelope) -> bool
        ensures { result ≡ stray_of self.now envelope.now }
    {
        envelope.kind != REPLY || u64::from(envelope.desk) != self.number
    }
}
