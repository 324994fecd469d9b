// A ledger and a register, which travel and join together (paper 01: pair).
ghost use Rattle.std.specs.Prelude.{◌≡◌};
ghost use Rattle.ledger.specs.Ledgers.{Shaped};
ghost use Rattle.replica.specs.Replicas.{fresh_replica, fits as fits_of, compared_of};

use super::register::Register;
use config::{Config, Refusal};
use ledger::{Compared, Ledger};

#[repr(C)]
#[derive(Clone, Copy)]
pub struct Replica {
    pub ledger: Ledger,
    pub register: Register,
}

impl Replica {
    // No transfer, and the start.
    pub fn fresh() -> Replica
        ensures { result ≡ fresh_replica }
    {
        Replica {
            ledger: Ledger::fresh(),
            register: Register::start(),
        }
    }

    // Whether a party of the cluster may hold this: every count, cell and number within the paper's ranges, and every weight above the floor.
    pub fn fits(&self, config: &Config) -> bool
        ensures { result ≡ fits_of config.now self.now }
    {
        match self.ledger.check(config) {
            Ok(()) => self.register.fits(config),
            Err(_) => false,
        }
    }

    // How this replica compares with another, for n servers: by their ledgers, or 6 where their rows do not agree or equal tags have other values.
    #[tactic(auto, unfolding(crate::specs::Replicas::compared_of))]
    pub fn compare(&self, other: &Replica, n: u64) -> Result<Compared, Refusal>
        ensures { (result ≡ compared_of n self.now other.now) × Shaped self.now.ledger }
    {
        let compared = self.ledger.compare(&other.ledger, n);
        if !self.register.agrees(&other.register) {
            return Err(Refusal::Clash);
        }
        compared
    }
}
