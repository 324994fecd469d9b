// Maps of servers: bit i of a 16-bit number stands for server i.
ghost use Rattle.std.specs.Prelude.{◌≡◌, ◌<◌};
ghost use Rattle.ledger.specs.Maps.{named, map_of, named_answer};

use config::{Config, Refusal};

// How many servers a map names: 1 for the cluster or a bit ≥ n, then 15.
pub fn count_named(config: &Config, map: u16) -> Result<u64, Refusal>
    ensures { result ≡ named_answer config.now map }
{
    if !within(config, map) {
        return Err(Refusal::BadHouse);
    }
    config.least()?;
    Ok(u64::from(map.count_ones()))
}

// Whether the cluster is within bounds and the map names servers of it only.
pub fn within(config: &Config, map: u16) -> bool
    ensures { result ≡ map_of config.now map }
{
    config.valid() && u32::from(map) >> config.n == 0
}

// Whether a map names server i.
pub(crate) fn names(map: u16, i: usize) -> bool
    requires { i < 16 }
    ensures { result ≡ named map i }
{
    (u32::from(map) >> i) % 2 == 1
}
