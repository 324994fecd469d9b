// The calls.
ghost use Rattle.std.specs.Prelude.{◌≡◌};
ghost use Rattle.message.specs.Envelopes.{message_of};
ghost use Rattle.message.specs.Answers.{place, write_of};
ghost use Rattle.message.specs.Faults.{fault_of, send_of};

use super::known::known;
use super::outgoing::Outgoing;
use config::{Config, Refusal};
use message::Envelope;
use replica::Replica;

// Writes a message into a buffer from a place on, and hands back the place after it. Refused are what the reader would refuse, by its number,
// and then a message that does not fit (13); the buffer is then as it was.
pub fn write(
    config: &Config,
    envelope: &Envelope,
    replica: &Replica,
    out: &mut [u8],
    at: usize,
) -> Result<u64, Refusal>
    ensures { (result ≡ (write_of config.now envelope.now replica.now out.old at).answer) × (out.new ≡ (write_of config.now envelope.now replica.now out.old at).out) }
{
    known(envelope, replica);
    let outgoing = Outgoing {
        config,
        envelope,
        replica,
    };
    outgoing.fault()?;
    outgoing.put(out, at)
}

// What a party sends of what it holds: a message that the reader would refuse, by whatever number, is 1.
pub fn send(
    config: &Config,
    envelope: &Envelope,
    replica: &Replica,
    out: &mut [u8],
    at: usize,
) -> Result<u64, Refusal>
    ensures { (result ≡ (send_of config.now envelope.now replica.now out.old at).answer) × (out.new ≡ (send_of config.now envelope.now replica.now out.old at).out) }
{
    let outgoing = Outgoing {
        config,
        envelope,
        replica,
    };
    if !outgoing.sends() {
        return Err(Refusal::BadHouse);
    }
    outgoing.put(out, at)
}

impl Outgoing<'_> {
    // Writes a message that the reader takes, or refuses it where it does not fit (13).
    fn put(&self, out: &mut [u8], at: usize) -> Result<u64, Refusal>
        requires { fault_of self.now.config.now self.now.envelope.now self.now.replica.now ≡ 0 }
        ensures { (result ≡ (place (message_of self.now.config.now self.now.envelope.now self.now.replica.now) out.old at).answer) × (out.new ≡ (place (message_of self.now.config.now self.now.envelope.now self.now.replica.now) out.old at).out) }
    {
        known(self.envelope, self.replica);
        if out.len() < at || self.narrow(out.len() - at) {
            return Err(Refusal::Narrow);
        }
        let written = self.fill(&mut out[at..]);
        Ok((at + written) as u64)
    }
}
