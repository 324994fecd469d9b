// What each server received and gave by a message's sheet: weights need no more of it. The crate `ledger` has the like for its own sums: the methods of both
// have a `requires`, so neither is public.
ghost use Rattle.std.specs.Prelude.{◌≡◌, ◌<◌, true};
ghost use Rattle.quorums.specs.Accounts.{weight as weight_of, margin};
ghost use Rattle.quorums.specs.Difference.{difference as difference_of};
ghost use Rattle.config.specs.Cluster.{lawful_of, least_of, server_of};
ghost use Rattle.ledger.specs.Maps.{named};
ghost use Rattle.ledger.specs.Sums.{Sums, no_sums, accounts_in, all_above};

use super::step::bit;
use config::Config;

// What each of 16 servers received, and what it gave: sums of 16 cells each, so that no sum of these overflows.
#[derive(Clone, Copy)]
pub(crate) struct Tally {
    pub received: [u64; 16],
    pub given: [u64; 16],
    ghost takes_small: { Sums 68719476720 received },
    ghost gives_small: { Sums 68719476720 given },
}

impl Tally {
    // Nothing was given.
    pub(crate) fn none() -> Tally
        ensures { (result.received ≡ no_sums) × (result.given ≡ no_sums) }
    {
        Tally {
            received: [0; 16],
            given: [0; 16],
        }
    }

    // Whether every weight is above the floor, where `least` is the least that is.
    pub(crate) fn above_floor(&self, config: &Config, least: u64) -> bool
        requires { (lawful_of config.now ≡ true) × (least ≡ least_of config.now) }
        ensures { result ≡ all_above config.now self.now.received self.now.given }
    {
        for i in 0..config.n as usize {
            let held = u64::from(config.starts[i]) + self.received[i];
            if held < self.given[i] + least {
                return false;
            }
        }
        true
    }

    // The weight of a server.
    pub(crate) fn weight(&self, config: &Config, server: u64) -> i64
        requires { server_of config.now server ≡ true }
        ensures { result ≡ weight_of (accounts_in config.now self.now.received self.now.given) server }
    {
        let i = server as usize;
        difference(config.start_at(server) + self.received[i], self.given[i])
    }

    // Twice the weight of the servers that a map names, less W: twice what they hold, less twice what they gave and W.
    pub(crate) fn margin(&self, config: &Config, map: u64) -> i64
        requires { lawful_of config.now ≡ true }
        ensures { result ≡ margin config.now.n (accounts_in config.now self.now.received self.now.given) (named map) }
    {
        let mut total: u64 = 0;
        let mut held: u64 = 0;
        let mut given: u64 = 0;
        for i in 0..config.n as usize {
            let start = u64::from(config.starts[i]);
            total += start;
            if bit(map, i) == 1 {
                held = held + start + self.received[i];
                given += self.given[i];
            }
        }
        difference(2 * held, 2 * given + total)
    }
}

// a less b, as a signed number.
fn difference(a: u64, b: u64) -> i64
    requires { (a < 4611686018427387904) × (b < 4611686018427387904) }
    ensures { result ≡ difference_of a b }
{
    (a as i64) - (b as i64)
}
