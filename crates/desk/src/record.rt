// The record of a desk, and how one is opened.
ghost use Rattle.std.specs.Prelude.{◌≡◌};
ghost use Rattle.config.specs.Cluster.{house_of};
ghost use Rattle.desk.specs.Desks.{number_lawful, fits as fits_of, sound as sound_of, fresh_desk, open_answer, open_of};

use super::operation::Operation;
use config::{Config, Refusal};
use replica::Replica;

#[repr(C)]
#[derive(Clone, Copy)]
pub struct Desk {
    pub config: Config,
    pub number: u64,
    pub replica: Replica,
    pub round: u32,
    pub operation: Operation,
}

// What a call hands back: the record changed, or as it was where the verdict is a refusal. A host gets the record either way, so the two stand side by side.
#[derive(Clone, Copy)]
pub struct DeskAnswer {
    pub verdict: Result<(), Refusal>,
    pub desk: Desk,
}

// What comes of a reply that is not refused: it is taken, or comes too late.
#[derive(Clone, Copy, Debug, PartialEq, Eq)]
pub enum Hearing {
    Taken,
    Late,
}

// What hearing a reply hands back: the record changed, or as it was where the reply was late or refused, beside the answer for the same reason.
#[derive(Clone, Copy)]
pub struct Heard {
    pub hearing: Result<Hearing, Refusal>,
    pub desk: Desk,
}

impl Desk {
    // A fresh record for desk `number` of a cluster of n servers, of which f may crash and which start with the weights listed: 1 where n, f or the number is
    // out of bounds, then 15 where the list is not lawful; and a record with every field 0.
    #[tactic(auto, unfolding(crate::specs::Desks::open_of, crate::specs::Desks::open_answer))]
    pub fn open(n: u64, f: u64, number: u64, starts: &[u64]) -> DeskAnswer
        ensures { result ≡ open_of (house_of n f starts.now) number }
    {
        let config = Config::given(n, f, starts);
        // Each way out makes its answer: a record that was made before it would be copied into it.
        if let Err(refusal) = opens(&config, number) {
            return DeskAnswer {
                verdict: Err(refusal),
                desk: Desk::fresh(Config::none(), 0),
            };
        }
        DeskAnswer {
            verdict: Ok(()),
            desk: Desk::fresh(config, number),
        }
    }

    // The record test: whether every field is within the paper's bounds and the ledger is not light.
    pub fn fits(&self) -> bool
        ensures { result ≡ fits_of self.now }
    {
        self.sound() && self.replica.fits(&self.config)
    }

    // What of the record test is not about the replica and the start weights: n and f, the number, and the operation.
    #[tactic(auto, unfolding(crate::specs::Desks::sound))]
    pub(crate) fn sound(&self) -> bool
        ensures { result ≡ sound_of self.now }
    {
        self.config.valid()
            && number_lawful(self.number)
            && self.operation.fits(&self.config, self.round)
    }

    // A record that holds nothing and does nothing.
    fn fresh(config: Config, number: u64) -> Desk
        ensures { result ≡ fresh_desk config number }
    {
        Desk {
            config,
            number,
            replica: Replica::fresh(),
            round: 0,
            operation: Operation::none(),
        }
    }
}

// Whether a desk may be opened: 1 where n, f or the number is out of bounds, then 15.
#[tactic(auto, unfolding(crate::specs::Desks::open_answer, crate::specs::Desks::opens, config::specs::Answers::least_answer))]
fn opens(config: &Config, number: u64) -> Result<(), Refusal>
    ensures { result ≡ open_answer config.now number }
{
    if !number_lawful(number) {
        return Err(Refusal::BadHouse);
    }
    config.least()?;
    Ok(())
}

// Whether a number is a desk's: 1 to 65,535.
#[tactic(auto, unfolding(crate::specs::Desks::number_lawful))]
fn number_lawful(number: u64) -> bool
    ensures { result ≡ number_lawful number }
{
    1 <= number && number <= 65535
}
