// A desk asks a server (paper 01, "Desk": Ask).
ghost use Rattle.std.specs.Prelude.{◌≡◌};
ghost use Rattle.desk.specs.Asks.{ask_of};

use super::operation::RUNNING;
use super::record::Desk;
use config::Refusal;
use message::{Envelope, REQUEST};
use writer::send;

impl Desk {
    // Writes a request to a server into a buffer from a place on, and hands back the place after it: 1 for the record, 9 if no operation runs, 1 for a
    // server ≥ n, 13 where it does not fit. The writer tests what is held as it writes, so it is tested here only where nothing is written.
    pub fn ask(&self, server: u64, out: &mut [u8], at: usize) -> Result<u64, Refusal>
        ensures { (result ≡ (ask_of self.now server out.old at).answer) × (out.new ≡ (ask_of self.now server out.old at).out) }
    {
        if !self.sound() {
            return Err(Refusal::BadHouse);
        }
        if self.operation.mode != RUNNING {
            if self.replica.fits(&self.config) {
                return Err(Refusal::Idle);
            }
            return Err(Refusal::BadHouse);
        }
        if self.config.n <= server {
            return Err(Refusal::BadHouse);
        }
        let envelope = Envelope {
            kind: REQUEST,
            server: server as u8,
            desk: self.number as u16,
            round: self.round,
            note: self.operation.note,
        };
        send(&self.config, &envelope, &self.replica, out, at)
    }
}
