// The cluster's parameters (paper 01: house; paper 02, N2): how many servers there are, how many may crash, what each weighs at the start, and the floor.
ghost use Rattle.std.specs.Prelude.{◌≡◌, not, true, ◌≤◌, pos, length, get_or};
ghost use Rattle.std.specs.Int.Signed.{lt_z};
ghost use Rattle.quorums.specs.Sum.{sum};
ghost use Rattle.config.specs.Cluster.{in_bounds, valid_of, server_of, start_of, lawful_of, least_by, why_of, stamp_bytes, most_stamp};
ghost use Rattle.config.specs.Firsts.{Firsts};
ghost use Rattle.config.specs.Answers.{decide, checked_answer, start_answer, total_answer, least_answer, above_answer};

use super::answer::Refusal;

// Servers 0 to n - 1, of which f may crash, and what each weighs at the start: n start weights, then zeros.
#[repr(C)]
#[derive(Clone, Copy)]
pub struct Config {
    pub n: u64,
    pub f: u64,
    pub starts: [u16; 16],
}

// The most servers that a cluster has.
pub const MOST_SERVERS: u64 = 16;

// The most that the servers of any cluster weigh together.
pub const MOST_WEIGHT: u64 = 16000;

impl Config {
    // Whether n and f are within bounds.
    #[tactic(auto, unfolding(crate::specs::Cluster::valid_of))]
    pub fn valid(&self) -> bool
        ensures { result ≡ valid_of self.now }
    {
        in_bounds(self.n, self.f)
    }

    // Whether n and f are within bounds and `server` is a server of the cluster.
    #[tactic(auto, unfolding(crate::specs::Cluster::server_of))]
    pub fn has(&self, server: u64) -> bool
        ensures { result ≡ server_of self.now server }
    {
        self.valid() && server < self.n
    }

    // How many bytes a stamp has in a message.
    #[tactic(auto, unfolding(crate::specs::Cluster::stamp_bytes))]
    pub fn stamp_bytes(&self) -> u64
        ensures { result ≡ stamp_bytes self.now }
    {
        4
    }

    // The largest stamp.
    #[tactic(auto, unfolding(crate::specs::Cluster::most_stamp, crate::specs::Cluster::stamp_bytes))]
    pub fn most_stamp(&self) -> u64
        ensures { result ≡ most_stamp self.now }
    {
        u64::from(u32::MAX)
    }

    // What is wrong: 1 for n and f, 15 for the start weights.
    #[tactic(auto, unfolding(crate::specs::Answers::checked_answer))]
    pub fn check(&self) -> Result<(), Refusal>
        ensures { result ≡ checked_answer self.now }
    {
        self.least()?;
        Ok(())
    }

    // Whether nothing is wrong.
    pub fn lawful(&self) -> bool
        ensures { result ≡ lawful_of self.now }
    {
        self.least().is_ok()
    }

    // The start weight of a server.
    #[tactic(auto, unfolding(crate::specs::Answers::start_answer))]
    pub fn start(&self, server: u64) -> Result<u64, Refusal>
        ensures { result ≡ start_answer self.now server }
    {
        if !self.has(server) {
            return Err(Refusal::BadHouse);
        }
        self.check()?;
        Ok(self.start_at(server))
    }

    // The same with no test, and 0 where there is no such server, for calls whose cluster has passed.
    #[tactic(auto, unfolding(crate::specs::Cluster::start_of))]
    pub fn start_at(&self, server: u64) -> u64
        ensures { (result ≡ start_of self.now server) × (result ≤ 65535) }
    {
        self.starts
            .get(server as usize)
            .copied()
            .map_or(0, u64::from)
    }

    // W: the start weights of all servers together.
    #[tactic(auto, unfolding(crate::specs::Answers::total_answer))]
    pub fn total(&self) -> Result<u64, Refusal>
        ensures { result ≡ total_answer self.now }
    {
        self.least()?;
        Ok(u64::from(sum_of(&self.starts)))
    }

    // The least weight that is above the floor, which is the least that may remain to a server. What is wrong with a cluster is found on the way.
    pub fn least(&self) -> Result<u64, Refusal>
        ensures { result ≡ least_answer self.now }
    {
        if !self.valid() {
            return Err(Refusal::BadHouse);
        }
        let first = first_of(&self.starts, self.n as usize);
        if sum_of(&self.starts) != first.total {
            return Err(Refusal::BadStart);
        }
        least_by(self.n, self.f, first.total, first.lowest).ok_or(Refusal::BadStart)
    }

    // Why a cluster is refused that is not lawful: 1 for n and f, 15 for the start weights.
    pub fn refusal(&self) -> Refusal
        ensures { result ≡ why_of self.now }
    {
        if self.valid() {
            return Refusal::BadStart;
        }
        Refusal::BadHouse
    }

    // Whether a weight is above the floor: weight × 2 × (n − f) > W.
    #[tactic(auto, unfolding(crate::specs::Answers::above_answer))]
    pub fn above_floor(&self, weight: i64) -> Result<bool, Refusal>
        ensures { result ≡ above_answer self.now weight }
    {
        let least = self.least()?;
        Ok(at_least(weight, least))
    }
}

// Whether n and f are within bounds.
pub(crate) fn in_bounds(n: u64, f: u64) -> bool
    ensures { result ≡ in_bounds n f }
{
    1 <= n && n <= MOST_SERVERS && f < n && 2 * f < n
}

// Whether a weight is no less than another.
fn at_least(weight: i64, least: u64) -> bool
    requires { least ≤ 16001 }
    ensures { result ≡ not (lt_z weight (pos least)) }
{
    least as i64 <= weight
}

// The least weight above the floor, by the sum and the least of n start weights, after which there is nothing: none where the sum passes 16,000 or the least
// isn't above the floor.
#[tactic(auto, unfolding(crate::specs::Cluster::least_by))]
pub(crate) fn least_by(n: u64, f: u64, total: u32, lowest: u16) -> Option<u64>
    requires { in_bounds n f ≡ true }
    ensures { result ≡ least_by n f total lowest }
{
    let total = u64::from(total);
    if MOST_WEIGHT < total {
        return None;
    }
    let least = total / (2 * (n - f)) + 1;
    if u64::from(lowest) < least {
        return None;
    }
    Some(least)
}

// The sum and the least of the first n of 16 start weights.
#[derive(Clone, Copy)]
struct First {
    pub total: u32,
    pub lowest: u16,
}

fn first_of(starts: &[u16; 16], n: usize) -> First
    requires { n ≤ 16 }
    ensures { Firsts starts.now n result }
{
    let mut total: u32 = 0;
    let mut lowest = u16::MAX;
    for start in &starts[..n] {
        total += u32::from(*start);
        lowest = lowest.min(*start);
    }
    First { total, lowest }
}

// The sum of all 16 start weights, which is that of the first n where there is nothing after them. It looks at all of them, so that a compiler can add
// several at once.
fn sum_of(starts: &[u16; 16]) -> u32
    ensures { (result ≡ sum 16 (λ i. get_or starts.now i 0)) × (result ≤ 1048560) }
{
    let mut total: u32 = 0;
    for start in starts {
        total += u32::from(*start);
    }
    total
}
