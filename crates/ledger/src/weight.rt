// Weights, and the number that says whether a map is a quorum (paper 01, "Sheets"; paper 02, N1).
ghost use Rattle.std.specs.Prelude.{◌≡◌};
ghost use Rattle.ledger.specs.Sums.{margin_answer};
ghost use Rattle.ledger.specs.Weights.{given_answer, received_answer, weight_answer, all_answer, quorum_answer};

use super::ledger::Ledger;
use super::map::within;
use super::sums::row_total;
use super::tally::{Tally, difference};
use config::{Config, Refusal};

impl Ledger {
    // What a server gave in all.
    pub fn given(self, config: &Config, server: u64) -> Result<u64, Refusal>
        ensures { result ≡ given_answer config.now self server }
    {
        config.start(server)?;
        Ok(row_total(self.row(server as usize)))
    }

    // What a server received in all.
    pub fn received(self, config: &Config, server: u64) -> Result<u64, Refusal>
        ensures { result ≡ received_answer config.now self server }
    {
        config.start(server)?;
        Ok(self.column_total(server as usize))
    }

    // The weight of a server: start + received − given. It is negative where a ledger says that more was given than was there.
    pub fn weight(self, config: &Config, server: u64) -> Result<i64, Refusal>
        ensures { result ≡ weight_answer config.now self server }
    {
        let start = config.start(server)?;
        let i = server as usize;
        Ok(difference(start + self.column_total(i), row_total(self.row(i))))
    }

    // The weight of all servers together.
    pub fn weight_of_all(self, config: &Config) -> Result<i64, Refusal>
        ensures { result ≡ all_answer config.now self }
    {
        config.least()?;
        let mut tally = Tally::none();
        self.sum_named(config.n, 65535, &mut tally);
        Ok(tally.weight_of_all(config))
    }

    // Twice the weight of the servers that a map names, less W: above zero they are a quorum, and at zero and below they are not.
    pub fn quorum(self, config: &Config, map: u16) -> Result<i64, Refusal>
        ensures { result ≡ quorum_answer config.now self map }
    {
        if !within(config, map) {
            return Err(Refusal::BadHouse);
        }
        config.least()?;
        let mut tally = Tally::none();
        self.sum_named(config.n, map, &mut tally);
        Ok(tally.margin(config, map))
    }

    // The same number for a ledger that may be damaged, wherever it lies: it passes the record test, or the answer is what `check` refuses.
    pub fn weigh(&self, config: &Config, map: u16) -> Result<i64, Refusal>
        ensures { result ≡ margin_answer config.now self.now map }
    {
        let least = config.least()?;
        let mut tally = Tally::none();
        self.test(config, least, &mut tally)?;
        Ok(tally.margin(config, map))
    }
}
