// What each server received and gave in all: weights need no more of a ledger.
ghost use Rattle.std.specs.Prelude.{◌≡◌, ◌<◌, ◌≤◌, true};
ghost use Rattle.quorums.specs.Accounts.{weight_in, margin};
ghost use Rattle.config.specs.Cluster.{valid_of, lawful_of, least_of};
ghost use Rattle.ledger.specs.Balances.{Sides};
ghost use Rattle.ledger.specs.Maps.{named};
ghost use Rattle.ledger.specs.Sums.{Sums, accounts_in, all_above, no_sums};
ghost use Rattle.quorums.specs.Difference.{difference as difference_of};

use super::map::names;
use config::Config;

// What each of 16 servers received, and what it gave: sums of 16 cells each, so that no sum of these overflows. Two arrays and no array of pairs, so that a
// compiler adds the cells of a row to what is received in vectors. The loops read three arrays at i, which a zip of them would not make plainer.
#[derive(Clone, Copy)]
pub(crate) struct Tally {
    pub received: [u64; 16],
    pub given: [u64; 16],
    ghost takes_small: { Sums 68719476720 received },
    ghost gives_small: { Sums 68719476720 given },
}

// Both sides of the weight of some servers, what they have before their gifts are taken off and what they gave, beside W.
#[derive(Clone, Copy)]
pub(crate) struct Balance {
    pub held: u64,
    pub given: u64,
    pub total: u64,
}

impl Tally {
    // Nothing was given.
    pub(crate) fn none() -> Tally
        ensures { (result.received ≡ no_sums) × (result.given ≡ no_sums) }
    {
        Tally {
            received: [0; 16],
            given: [0; 16],
        }
    }

    // Whether every weight is above the floor, where `least` is the least that is.
    pub(crate) fn above_floor(&self, config: &Config, least: u64) -> bool
        requires { (lawful_of config.now ≡ true) × (least ≡ least_of config.now) }
        ensures { result ≡ all_above config.now self.now.received self.now.given }
    {
        for i in 0..config.n as usize {
            let held = u64::from(config.starts[i]) + self.received[i];
            if held < self.given[i] + least {
                return false;
            }
        }
        true
    }

    // The weight of all servers together.
    pub(crate) fn weight_of_all(&self, config: &Config) -> i64
        requires { valid_of config.now ≡ true }
        ensures { result ≡ weight_in config.now.n (accounts_in config.now self.now.received self.now.given) (λ i. true) }
    {
        let b = self.balance(config, 65535);
        difference(b.held, b.given)
    }

    // Twice the weight of the servers that a map names, less W: twice what they hold, less twice what they gave and W.
    pub(crate) fn margin(&self, config: &Config, map: u16) -> i64
        requires { valid_of config.now ≡ true }
        ensures { result ≡ margin config.now.n (accounts_in config.now self.now.received self.now.given) (named map) }
    {
        let b = self.balance(config, map);
        difference(2 * b.held, 2 * b.given + b.total)
    }

    // The balance of the servers that a map names together.
    fn balance(&self, config: &Config, map: u16) -> Balance
        requires { valid_of config.now ≡ true }
        ensures { Sides config.now.n (accounts_in config.now self.now.received self.now.given) (named map) result }
    {
        let mut held: u64 = 0;
        let mut given: u64 = 0;
        let mut total: u64 = 0;
        for i in 0..config.n as usize {
            let start = u64::from(config.starts[i]);
            total += start;
            if names(map, i) {
                held = held + start + self.received[i];
                given += self.given[i];
            }
        }
        Balance { held, given, total }
    }
}

// a less b, as a signed number.
pub(crate) fn difference(a: u64, b: u64) -> i64
    requires { (a < 4611686018427387904) × (b < 4611686018427387904) }
    ensures { result ≡ difference_of a b }
{
    (a as i64) - (b as i64)
}
