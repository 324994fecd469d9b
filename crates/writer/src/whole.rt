// A whole message.
ghost use Rattle.std.specs.Prelude.{◌≡◌, ◌≤◌, length};
ghost use Rattle.message.specs.Answers.{over};
ghost use Rattle.message.specs.Envelopes.{message_of};
ghost use Rattle.writer.specs.Outlines.{Counted, CountsBelow};
ghost use Rattle.writer.specs.Places.{HasRoom, Puts};

use super::outgoing::Outgoing;
use super::outline::{field_map, row_map};
use super::pen::Pen;

impl Outgoing<'_> {
    // The message at the front of a buffer, and how long it is.
    #[tactic(auto, unfolding(crate::specs::Places::onto))]
    pub(crate) fn fill(&self, out: &mut [u8]) -> usize
        requires { (self.now.replica.now.register.value.length ≤ 64) × Counted self.now.replica.now.ledger × (self.now.config.now.n ≤ 16) × CountsBelow self.now.config.now.n self.now.replica.now.ledger × (length (message_of self.now.config.now self.now.envelope.now self.now.replica.now) ≤ length out.old) }
        ensures { (out.new ≡ over (message_of self.now.config.now self.now.envelope.now self.now.replica.now) out.old) × (result ≡ length (message_of self.now.config.now self.now.envelope.now self.now.replica.now)) }
    {
        let mut pen = Pen { out, at: 0 };
        pen.message(self);
        pen.at
    }
}

impl Pen<'_> {
    // The rows from n on are empty, as is every row whose count is 0.
    fn message(&mut self, outgoing: &Outgoing)
        requires short { outgoing.now.replica.now.register.value.length ≤ 64 }
        requires counted { Counted outgoing.now.replica.now.ledger }
        requires most { outgoing.now.config.now.n ≤ 16 }
        requires below { CountsBelow outgoing.now.config.now.n outgoing.now.replica.now.ledger }
        requires room { HasRoom (message_of outgoing.now.config.now outgoing.now.envelope.now outgoing.now.replica.now) self.old }
        ensures { Puts (message_of outgoing.now.config.now outgoing.now.envelope.now outgoing.now.replica.now) self.old self.new }
    {
        let Outgoing {
            config,
            envelope,
            replica,
        } = *outgoing;
        let rows = row_map(&replica.ledger.counts);
        let map = field_map(envelope, &replica.register, rows);
        let note = u64::from(envelope.note);
        self.head(map, envelope);
        self.register(config, &replica.register);
        self.number(rows, 2, rows);
        self.rows(&replica.ledger, config.n as usize);
        self.number(note, 4, note);
    }
}
