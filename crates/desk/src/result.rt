// A desk tells the result of an operation that has ended (paper 01, "Desk": Result).
ghost use Rattle.std.specs.Prelude.{◌≡◌};
ghost use Rattle.desk.specs.Results.{result_of};

use super::operation::ENDED;
use super::record::Desk;
use config::Refusal;
use replica::Register;

// The kind of the operation (1 read, 2 write), its tag and value, and its restarts. The kind is the record's number, which C is handed as it is.
#[derive(Clone, Copy)]
pub struct Told {
    pub kind: u16,
    pub register: Register,
    pub restarts: u32,
}

impl Desk {
    // The result of the operation that ended since the last begin, as often as it is asked for: 1 for the record, 9 if none has ended.
    #[tactic(auto, unfolding(crate::specs::Results::result_of))]
    pub fn result(&self) -> Result<Told, Refusal>
        ensures { result ≡ result_of self.now }
    {
        if !self.fits() {
            return Err(Refusal::BadHouse);
        }
        if self.operation.mode != ENDED {
            return Err(Refusal::Idle);
        }
        Ok(Told {
            kind: self.operation.kind,
            register: self.operation.chosen.trimmed(),
            restarts: self.operation.restarts,
        })
    }
}
