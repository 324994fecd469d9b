// What a call is given of a cluster (paper 02, N2): n, f, and the start weights as a list of any length, with entries of any size.
ghost use Rattle.std.specs.Prelude.{◌≡◌};
ghost use Rattle.config.specs.Cluster.{house_of, kept_of, config_of, no_config};
ghost use Rattle.config.specs.Answers.{config_answer};

use super::answer::Refusal;
use super::cluster::{Config, MOST_SERVERS, MOST_WEIGHT, in_bounds, least_by};

// A lawful cluster, and its least weight above the floor.
#[derive(Clone, Copy)]
pub struct Lawful {
    pub config: Config,
    pub least: u64,
}

impl Config {
    // The cluster of n, f and a list, or what is wrong with them: 1 for n and f, 15 for the list. The list is gone through once: an entry is looked at, kept and
    // added to those before it, so that nothing that was kept is read again for the test.
    pub fn of(n: u64, f: u64, starts: &[u64]) -> Result<Lawful, Refusal>
        ensures { result ≡ config_answer (house_of n f starts.now) }
    {
        if !in_bounds(n, f) {
            return Err(Refusal::BadHouse);
        }
        if starts.len() as u64 != n {
            return Err(Refusal::BadStart);
        }
        let mut kept: [u16; 16] = [0; 16];
        let mut total: u32 = 0;
        let mut lowest = u16::MAX;
        for (i, start) in starts.iter().enumerate() {
            if MOST_WEIGHT < *start {
                return Err(Refusal::BadStart);
            }
            let start = *start as u16;
            kept[i] = start;
            total += u32::from(start);
            lowest = lowest.min(start);
        }
        let least = least_by(n, f, total, lowest).ok_or(Refusal::BadStart)?;
        let config = Config { n, f, starts: kept };
        Ok(Lawful { config, least })
    }

    // The same with no test: its fault is that of what was given, so that a call that tests its cluster need not test the list first.
    pub fn given(n: u64, f: u64, starts: &[u64]) -> Config
        ensures { result ≡ config_of (house_of n f starts.now) }
    {
        let starts = kept(n, starts);
        Config { n, f, starts }
    }

    // Nothing but zeros.
    pub fn none() -> Config
        ensures { result ≡ no_config }
    {
        Config {
            n: 0,
            f: 0,
            starts: [0; 16],
        }
    }
}

// The start weights of a list that is n long, with zeros after them; nothing but zeros where it is not, or has an entry that passes 16,000. No entry is cut
// and none is added to another before it has been looked at.
fn kept(n: u64, starts: &[u64]) -> [u16; 16]
    ensures { result ≡ kept_of n starts.now }
{
    let mut kept: [u16; 16] = [0; 16];
    if starts.len() as u64 != n || MOST_SERVERS < n {
        return kept;
    }
    for (i, start) in starts.iter().enumerate() {
        if MOST_WEIGHT < *start {
            return [0; 16];
        }
        kept[i] = *start as u16;
    }
    kept
}
