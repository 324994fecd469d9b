// What the reader would say of the bytes of an envelope and a replica.
ghost use Rattle.std.specs.Prelude.{◌≡◌, cond, false};
ghost use Rattle.replica.specs.Replicas.{fits};
ghost use Rattle.message.specs.Answers.{verdict_of};
ghost use Rattle.message.specs.Cursors.{within};
ghost use Rattle.message.specs.Faults.{kind_number_fits, lawful, fault_of};

use super::outgoing::Outgoing;
use config::Refusal;
use message::{Envelope, REQUEST, SHARE};

// Whether the fields that stand are those that the kind has. The reader's test is of a map, before it has any field; this one is of the fields themselves.
#[tactic(auto, unfolding(message::specs::Faults::kind_number_fits))]
fn kind_fits(envelope: &Envelope) -> bool
    ensures { result ≡ kind_number_fits envelope.now.kind envelope.now.desk envelope.now.round envelope.now.note }
{
    if envelope.kind == SHARE {
        return envelope.desk == 0 && envelope.round == 0 && envelope.note == 0;
    }
    envelope.desk != 0 && envelope.round != 0
}

// Whether the kind is one.
#[tactic(auto, unfolding(message::specs::Cursors::within))]
fn is_kind(kind: u8) -> bool
    ensures { result ≡ within 1 3 kind }
{
    (REQUEST..=SHARE).contains(&kind)
}

impl Outgoing<'_> {
    // Whether a replica that fits may travel with the envelope.
    #[tactic(auto, unfolding(message::specs::Faults::lawful))]
    fn lawful(&self) -> bool
        ensures { result ≡ lawful self.now.config.now self.now.envelope.now }
    {
        is_kind(self.envelope.kind)
            && kind_fits(self.envelope)
            && u64::from(self.envelope.server) < self.config.n
    }

    // Whether the reader takes them, which of all tests fails being of no matter.
    pub(crate) fn sends(&self) -> bool
        ensures { result ≡ cond (lawful self.now.config.now self.now.envelope.now) (fits self.now.config.now self.now.replica.now) false }
    {
        self.lawful() && self.replica.fits(self.config)
    }

    // The reader's verdict.
    pub(crate) fn fault(&self) -> Result<(), Refusal>
        ensures { result ≡ verdict_of (fault_of self.now.config.now self.now.envelope.now self.now.replica.now) }
    {
        self.config.least()?;
        if !is_kind(self.envelope.kind) {
            return Err(Refusal::OddField);
        }
        if !kind_fits(self.envelope) {
            return Err(Refusal::BadMap);
        }
        if self.config.n <= u64::from(self.envelope.server)
            || !self.replica.register.fits(self.config)
        {
            return Err(Refusal::OddField);
        }
        self.replica.ledger.check(self.config)
    }
}
