// What a reply does that is taken (paper 01, "Desk": Hear). `joined` is the register held joined with the one that the reply carries.
ghost use Rattle.std.specs.Prelude.{◌≡◌, ◌≤◌, ◌<◌, false};
ghost use Rattle.desk.specs.Hears.{marked as marked_of, no_stamp, chosen_of, restart_of, choose_of};
ghost use Rattle.desk.specs.Hearings.{pair, mark_in};

use super::operation::WRITE;
use super::record::{Desk, Hearing};
use config::Refusal;
use replica::{Register, Replica};

impl Desk {
    // The reply's ledger is larger, and has all that the desk's has: it takes its place, and the operation starts over in the next round, with nobody
    // counted, and one restart more; 12 in the last round.
    #[tactic(auto, unfolding(crate::specs::Hears::restart_of))]
    pub(crate) fn restart(&mut self, told: &Replica, joined: Register) -> Result<Hearing, Refusal>
        requires { self.old.operation.restarts ≤ self.old.round }
        ensures { (result ≡ (restart_of self.old (pair told.now.ledger joined)).hearing) × (self.new ≡ (restart_of self.old (pair told.now.ledger joined)).desk) }
    {
        self.round = self.round.checked_add(1).ok_or(Refusal::Spent)?;
        self.replica.ledger = told.ledger;
        self.replica.register = joined;
        self.operation.answered = 0;
        self.operation.restarts += 1;
        Ok(Hearing::Taken)
    }

    // The ledgers are equal: the server is marked, and where the marked servers are a quorum, by the sign of their margin, the phase ends, which after
    // phase 2 ends the operation. Ending phase 1 may give 12.
    #[tactic(auto, unfolding(crate::specs::Hearings::mark_in))]
    pub(crate) fn mark(
        &mut self,
        joined: Register,
        map: u16,
        margin: i64,
    ) -> Result<Hearing, Refusal>
        requires { self.old.number ≤ 65535 }
        ensures { (result ≡ (mark_in self.old joined map margin).hearing) × (self.new ≡ (mark_in self.old joined map margin).desk) }
    {
        if 0 < margin {
            if self.operation.phase == 1 {
                return self.choose(joined);
            }
            self.operation = self.operation.finished();
        } else {
            self.operation.answered = map;
        }
        self.replica.register = joined;
        Ok(Hearing::Taken)
    }

    // Phase 1 ends: the chosen register is held, and phase 2 begins in the next round; 12 in the last round, and for a write that finds no stamp left.
    #[tactic(auto, unfolding(crate::specs::Hears::choose_of))]
    fn choose(&mut self, joined: Register) -> Result<Hearing, Refusal>
        requires { self.old.number ≤ 65535 }
        ensures { (result ≡ (choose_of self.old (pair self.old.replica.ledger joined)).hearing) × (self.new ≡ (choose_of self.old (pair self.old.replica.ledger joined)).desk) }
    {
        let next = self.round.checked_add(1).ok_or(Refusal::Spent)?;
        if self.finds_no_stamp(&joined) {
            return Err(Refusal::Spent);
        }
        let chosen = self.chosen(joined);
        self.round = next;
        self.replica.register = chosen;
        self.operation = self.operation.in_phase_two(chosen);
        Ok(Hearing::Taken)
    }

    // Whether a write finds no stamp left above the one held.
    #[tactic(auto, unfolding(crate::specs::Hears::no_stamp))]
    fn finds_no_stamp(&self, held: &Register) -> bool
        ensures { result ≡ no_stamp self.now held.now }
    {
        self.operation.kind == WRITE && self.config.most_stamp() <= u64::from(held.stamp)
    }

    // What phase 1 chooses: a read the register held, a write the next stamp with this desk's number and the value to be written.
    #[tactic(auto, unfolding(crate::specs::Hears::chosen_of))]
    fn chosen(&self, held: Register) -> Register
        requires { (self.now.number ≤ 65535) × (no_stamp self.now held ≡ false) }
        ensures { result ≡ chosen_of self.now held }
    {
        if self.operation.kind != WRITE {
            return held;
        }
        Register {
            stamp: held.stamp + 1,
            desk: self.number as u16,
            value: self.operation.value,
        }
    }
}

// A map of servers with one server more, or as it was where it names that server.
pub(crate) fn marked(map: u16, server: u8) -> u16
    requires { server < 16 }
    ensures { result ≡ marked_of map server }
{
    map | 1 << server
}
