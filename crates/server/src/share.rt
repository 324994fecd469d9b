// A server tells what it holds (paper 01, "Server": Share).
ghost use Rattle.std.specs.Prelude.{◌≡◌};
ghost use Rattle.server.specs.Shares.{share_of};

use super::record::Server;
use config::Refusal;
use message::{Envelope, SHARE};
use writer::send;

impl Server {
    // Writes a share into a buffer from a place on, and hands back the place after it: 1 for the record, 13 where it does not fit. The writer tests what is held
    // as it writes.
    #[tactic(auto, using(crate::proofs::Shares::sharing), unfolding(crate::specs::Shares::share_of, crate::specs::Servers::fits))]
    pub fn share(&self, out: &mut [u8], at: usize) -> Result<u64, Refusal>
        ensures { (result ≡ (share_of self.now out.old at).answer) × (out.new ≡ (share_of self.now out.old at).out) }
    {
        if !self.config.has(self.number) {
            return Err(Refusal::BadHouse);
        }
        let envelope = Envelope {
            kind: SHARE,
            server: self.number as u8,
            desk: 0,
            round: 0,
            note: 0,
        };
        send(&self.config, &envelope, &self.replica, out, at)
    }
}
