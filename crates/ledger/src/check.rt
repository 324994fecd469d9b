// Whether a ledger is one that a party may hold or send: every count and cell within the paper's ranges, and every weight above the floor.
ghost use Rattle.std.specs.Prelude.{◌≡◌};
ghost use Rattle.ledger.specs.Checks.{total_fits, bounds_answer, floor_answer, check_answer};

use super::ledger::Ledger;
use super::tally::Tally;
use config::{Config, MOST_WEIGHT, Refusal};

impl Ledger {
    // The first fault of the ledger: 1 or 15 for the cluster, 4 for a count or cell out of range, 5 for a weight not above the floor.
    pub fn check(&self, config: &Config) -> Result<(), Refusal>
        ensures { result ≡ check_answer config.now self.now }
    {
        let least = config.least()?;
        self.test(config, least, &mut Tally::none())
    }

    // Whether every count and cell is within range: 1 or 15 for the cluster, then 4.
    pub fn check_bounds(&self, config: &Config) -> Result<(), Refusal>
        ensures { result ≡ bounds_answer config.now self.now }
    {
        config.least()?;
        if self.faults(config.n, &mut Tally::none()) != 0 {
            return Err(Refusal::OddField);
        }
        Ok(())
    }

    // Whether every weight is above the floor: 1 or 15 for the cluster, then 5.
    pub fn check_floor(&self, config: &Config) -> Result<(), Refusal>
        ensures { result ≡ floor_answer config.now self.now }
    {
        let least = config.least()?;
        let mut tally = Tally::none();
        self.sum_named(config.n, 65535, &mut tally);
        if !tally.above_floor(config, least) {
            return Err(Refusal::Light);
        }
        Ok(())
    }
}

// Whether a row's total lies from its count to 16,000 times its count.
pub fn total_fits(count: u16, total: u64) -> bool
    ensures { result ≡ total_fits count total }
{
    let count = u64::from(count);
    count <= total && total <= MOST_WEIGHT * count
}
