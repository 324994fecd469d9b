// A desk tells how far its operation is from a quorum (paper 02, N1).
ghost use Rattle.std.specs.Prelude.{◌≡◌, true};
ghost use Rattle.desk.specs.Desks.{sound};
ghost use Rattle.desk.specs.Margins.{margin_of, weighed_of};

use super::operation::RUNNING;
use super::record::Desk;
use config::Refusal;

impl Desk {
    // Twice the weight of the servers that answered in this round, on the desk's own sheet, less W: 1 for the record, 9 if no operation runs.
    #[tactic(auto, unfolding(crate::specs::Margins::margin_of, crate::specs::Margins::weighed_of))]
    pub fn margin(&self) -> Result<i64, Refusal>
        ensures { result ≡ margin_of self.now }
    {
        let margin = self.weighed(self.operation.answered)?;
        if self.operation.mode != RUNNING {
            return Err(Refusal::Idle);
        }
        Ok(margin)
    }

    // The margin of a map of servers on the desk's own sheet: 1 for the record, whose test finds it and has that of the ledger in it.
    pub(crate) fn weighed(&self, map: u16) -> Result<i64, Refusal>
        ensures { result ≡ weighed_of self.now map }
    {
        if !self.sound() {
            return Err(Refusal::BadHouse);
        }
        self.weighed_sound(map)
    }

    // The same of a record that has passed what of the test is not about the replica.
    #[tactic(auto, unfolding(crate::specs::Margins::weighed_of))]
    pub(crate) fn weighed_sound(&self, map: u16) -> Result<i64, Refusal>
        requires { sound self.now ≡ true }
        ensures { result ≡ weighed_of self.now map }
    {
        if !self.replica.register.fits(&self.config) {
            return Err(Refusal::BadHouse);
        }
        self.replica
            .ledger
            .weigh(&self.config, map)
            .or(Err(Refusal::BadHouse))
    }
}
