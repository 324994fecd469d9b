// The map, and the fields of bits 0 to 3: kind, server, desk, round.
ghost use Rattle.std.specs.Prelude.{◌≡◌, true, ◌≤◌, length, IfOk};
ghost use Rattle.config.specs.Cluster.{lawful_of};
ghost use Rattle.message.specs.Scans.{map_lawful, kind_has};
ghost use Rattle.reader.specs.Heads.{head_answer};

use super::step::{MOST_FOUR, MOST_TWO, bit, read_number};
use config::{Config, Refusal};
use message::{Envelope, REQUEST, SHARE};

// The map, the envelope with the fields of bits 0 to 3, and the place after them. The note stands behind the sheet: it is 0 here.
#[derive(Clone, Copy)]
pub(crate) struct Head {
    pub map: u64,
    pub envelope: Envelope,
    pub at: usize,
}

// Whether a map has bits 0 and 1, and none from 7 on.
#[tactic(auto, unfolding(message::specs::Scans::map_lawful))]
fn map_lawful(map: u64) -> bool
    ensures { result ≡ map_lawful map }
{
    map < 128 && map % 4 == 3
}

// Whether a map has the fields that its kind has, and none that its kind may not have.
#[tactic(auto, unfolding(message::specs::Scans::kind_has))]
fn kind_has(kind: u8, map: u64) -> bool
    ensures { result ≡ kind_has kind map }
{
    let desk = bit(map, 2);
    let round = bit(map, 3);
    let note = bit(map, 6);
    if kind == SHARE {
        desk == 0 && round == 0 && note == 0
    } else {
        desk == 1 && round == 1
    }
}

pub(crate) fn read_head(config: &Config, msg: &[u8]) -> Result<Head, Refusal>
    requires { lawful_of config.now ≡ true }
    ensures { (result ≡ head_answer config.now msg.now) × IfOk result (λ h. h.at ≤ length msg.now) }
{
    let map = read_number(msg, 1, 2, 0, MOST_TWO, 0)?;
    if !map_lawful(map.x) {
        return Err(Refusal::BadMap);
    }
    let kind = read_number(msg, 1, 1, u64::from(REQUEST), u64::from(SHARE), map.at)?;
    if !kind_has(kind.x as u8, map.x) {
        return Err(Refusal::BadMap);
    }
    let server = read_number(msg, 1, 1, 0, config.n - 1, kind.at)?;
    let desk = read_number(msg, bit(map.x, 2), 2, 1, MOST_TWO, server.at)?;
    let round = read_number(msg, bit(map.x, 3), 4, 1, MOST_FOUR, desk.at)?;
    Ok(Head {
        map: map.x,
        envelope: Envelope {
            kind: kind.x as u8,
            server: server.x as u8,
            desk: desk.x as u16,
            round: round.x as u32,
            note: 0,
        },
        at: round.at,
    })
}
