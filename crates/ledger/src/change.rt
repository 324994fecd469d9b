// One transfer more in a ledger (paper 01, "Server": Transfer).
ghost use Rattle.std.specs.Prelude.{◌≡◌, ◌+◌, ◌*◌, ◌≤◌, ◌<◌};
ghost use Rattle.ledger.specs.Ledgers.{count_of, cell_of};
ghost use Rattle.ledger.specs.Changes.{lawful as lawful_of, added, held_answer, add_answer};

use super::ledger::{Changed, Ledger};
use super::tally::Tally;
use config::{Config, Refusal};

// The last number of a giver's transfers.
const MOST_COUNT: u16 = u16::MAX;

impl Ledger {
    // The ledger with a transfer of `amount` from `giver` to `taker` added: 1 for n, f and a giver ≥ n; 15 for bad start weights; 1 for a ledger out of
    // range or light; 11 for a taker that is the giver or ≥ n or an amount of 0; 12 where the giver's count is at its end; 10 where the rest of its weight
    // isn't above the floor.
    pub fn add(self, config: &Config, giver: u64, taker: u64, amount: u64) -> Changed
        ensures { result ≡ add_answer config.now self giver taker amount }
    {
        if let Err(refusal) = config.start(giver) {
            return self.refused(refusal);
        }
        let mut ledger = self;
        let verdict = ledger.give(config, giver, taker, amount);
        Changed { verdict, ledger }
    }

    // `add` on a ledger where it lies: it is changed there, or left as it was where the verdict is a refusal. What is wrong with the cluster or the ledger is
    // 1, bad start weights too.
    pub fn give(
        &mut self,
        config: &Config,
        giver: u64,
        taker: u64,
        amount: u64,
    ) -> Result<(), Refusal>
        ensures { (result ≡ (held_answer config.now self.old giver taker amount).verdict) × (self.new ≡ (held_answer config.now self.old giver taker amount).ledger) }
    {
        self.may_give(config, giver, taker, amount)?;
        self.put(giver as usize, taker as usize, amount as u32);
        Ok(())
    }

    // The tests of a transfer, the last by the sums that the record test leaves.
    fn may_give(&self, config: &Config, giver: u64, taker: u64, amount: u64) -> Result<(), Refusal>
        ensures { result ≡ (held_answer config.now self.now giver taker amount).verdict }
    {
        if !config.has(giver) {
            return Err(Refusal::BadHouse);
        }
        let Ok(least) = config.least() else {
            return Err(Refusal::BadHouse);
        };
        let mut tally = Tally::none();
        let Ok(()) = self.test(config, least, &mut tally) else {
            return Err(Refusal::BadHouse);
        };
        if !lawful(config, giver, taker, amount) {
            return Err(Refusal::BadTransfer);
        }
        let i = giver as usize;
        if self.counts[i] == MOST_COUNT {
            return Err(Refusal::Spent);
        }
        if config.start_at(giver) + tally.received[i] - tally.given[i] - least < amount {
            return Err(Refusal::Thin);
        }
        Ok(())
    }

    // One transfer more in the giver's count and in its cell for the taker.
    fn put(&mut self, giver: usize, taker: usize, amount: u32)
        requires { (giver < 16) × (taker < 16) × (count_of self.old giver < 65535) × (cell_of self.old giver taker + amount ≤ 4294967295) }
        ensures { self.new ≡ added self.old giver taker amount }
    {
        self.counts[giver] += 1;
        self.cells[giver * 16 + taker] += amount;
    }
}

// Whether the taker is another server of the cluster and something is given.
fn lawful(config: &Config, giver: u64, taker: u64, amount: u64) -> bool
    ensures { result ≡ lawful_of config.now giver taker amount }
{
    giver != taker && taker < config.n && 0 < amount
}
