// The operation of a desk. Kind, phase and mode are numbers: a record may hold any, and the record test says which ones mean something.
ghost use Rattle.std.specs.Prelude.{◌≡◌, true};
ghost use Rattle.config.specs.Cluster.{valid_of};
ghost use Rattle.desk.specs.Operations.{no_operation, begun_operation, mode_lawful, kind_lawful, phase_lawful, fits as fits_of};
ghost use Rattle.desk.specs.Hears.{in_phase_two, finished_operation};

use config::Config;
use ledger::within;
use replica::{Register, Value};

// No operation, one that runs, one that has ended and whose result is kept.
pub const NONE: u32 = 0;

pub const RUNNING: u32 = 1;

pub const ENDED: u32 = 2;

// The kinds of operation.
pub const READ: u16 = 1;

pub const WRITE: u16 = 2;

// `answered` is a map of the servers that answered in the current round, `value` what is to be written, and `chosen` the register that phase 1 chose.
#[repr(C)]
#[derive(Clone, Copy)]
pub struct Operation {
    pub mode: u32,
    pub note: u32,
    pub restarts: u32,
    pub kind: u16,
    pub phase: u16,
    pub answered: u16,
    pub value: Value,
    pub chosen: Register,
}

impl Operation {
    // No operation: every field is 0.
    pub(crate) fn none() -> Operation
        ensures { result ≡ no_operation }
    {
        Operation {
            mode: NONE,
            note: 0,
            restarts: 0,
            kind: 0,
            phase: 0,
            answered: 0,
            value: Value::empty(),
            chosen: Register::start(),
        }
    }

    // One that begins.
    pub(crate) fn begun(kind: u16, value: Value, note: u32) -> Operation
        ensures { result ≡ begun_operation kind value note }
    {
        Operation {
            mode: RUNNING,
            note,
            kind,
            phase: 1,
            value,
            ..Operation::none()
        }
    }

    // The operation in phase 2, with the register that phase 1 chose: nobody has answered.
    pub(crate) fn in_phase_two(self, chosen: Register) -> Operation
        ensures { result ≡ in_phase_two self chosen }
    {
        Operation {
            mode: RUNNING,
            phase: 2,
            answered: 0,
            chosen,
            ..self
        }
    }

    // The operation once it has ended: what its result does not give is 0.
    pub(crate) fn finished(self) -> Operation
        ensures { result ≡ finished_operation self }
    {
        Operation {
            mode: ENDED,
            note: 0,
            phase: 0,
            answered: 0,
            value: Value::empty(),
            ..self
        }
    }

    // The part of the record test that is about the operation of a desk in a round. The cluster has passed.
    #[tactic(auto, unfolding(crate::specs::Operations::fits))]
    pub(crate) fn fits(&self, config: &Config, round: u32) -> bool
        requires { valid_of config.now ≡ true }
        ensures { result ≡ fits_of config.now round self.now }
    {
        mode_lawful(self.mode, round)
            && kind_lawful(self.mode, self.kind)
            && phase_lawful(self.mode, self.phase)
            && within(config, self.answered)
            && self.restarts <= round
            && self.value.fits()
            && self.chosen.fits(config)
    }
}

// Whether a mode is one, and none at round 0.
#[tactic(auto, unfolding(crate::specs::Operations::mode_lawful))]
fn mode_lawful(mode: u32, round: u32) -> bool
    ensures { result ≡ mode_lawful mode round }
{
    if round == 0 {
        mode == NONE
    } else {
        mode <= ENDED
    }
}

// Whether a kind is at most 2, and one where there is an operation.
#[tactic(auto, unfolding(crate::specs::Operations::kind_lawful))]
fn kind_lawful(mode: u32, kind: u16) -> bool
    ensures { result ≡ kind_lawful mode kind }
{
    kind <= WRITE && (mode == NONE || READ <= kind)
}

// Whether a phase is at most 2, and 1 or 2 where an operation runs.
#[tactic(auto, unfolding(crate::specs::Operations::phase_lawful))]
fn phase_lawful(mode: u32, phase: u16) -> bool
    ensures { result ≡ phase_lawful mode phase }
{
    phase <= 2 && (mode != RUNNING || 1 <= phase)
}
