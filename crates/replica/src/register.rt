// A register: a tag and a value (paper 01, "Sheets").
ghost use Rattle.std.specs.Prelude.{◌≡◌};
ghost use Rattle.replica.specs.Registers.{start_register, register_fits, tag_of, below as below_of, higher as higher_of, agree as agree_of, trimmed as trimmed_of};

use super::value::Value;
use config::Config;

// A tag, compared stamp first.
#[derive(Clone, Copy, Debug, PartialEq, Eq, PartialOrd, Ord)]
pub struct Tag {
    pub stamp: u32,
    pub desk: u16,
}

// The tag is (stamp, desk): two fields of the record, which is C's too.
#[repr(C)]
#[derive(Clone, Copy)]
pub struct Register {
    pub stamp: u32,
    pub desk: u16,
    pub value: Value,
}

impl Register {
    // The start: tag (0, 0), and an empty value.
    pub fn start() -> Register
        ensures { result ≡ start_register }
    {
        Register {
            stamp: 0,
            desk: 0,
            value: Value::empty(),
        }
    }

    pub fn tag(&self) -> Tag
        ensures { result ≡ tag_of self.now }
    {
        Tag {
            stamp: self.stamp,
            desk: self.desk,
        }
    }

    // Whether this register may be held, written and sent: it is the start, or has a stamp of the cluster's, a desk and a value that fits.
    #[tactic(auto, unfolding(crate::specs::Registers::register_fits, crate::specs::Registers::is_start))]
    pub fn fits(&self, config: &Config) -> bool
        ensures { result ≡ register_fits config.now self.now }
    {
        if self.stamp == 0 {
            return self.desk == 0 && self.value.length == 0;
        }
        u64::from(self.stamp) <= config.most_stamp() && self.desk != 0 && self.value.fits()
    }

    // Whether the tag is below another's.
    #[tactic(auto, unfolding(crate::specs::Registers::below))]
    pub fn below(&self, other: &Register) -> bool
        ensures { result ≡ below_of self.now other.now }
    {
        self.tag() < other.tag()
    }

    // Of two registers the one with the higher tag.
    #[tactic(auto, unfolding(crate::specs::Registers::higher))]
    pub fn higher(self, other: Register) -> Register
        ensures { result ≡ higher_of self other }
    {
        if self.below(&other) { other } else { self }
    }

    // Whether two registers join: equal tags have equal values.
    #[tactic(auto, unfolding(crate::specs::Registers::agree))]
    pub fn agrees(&self, other: &Register) -> bool
        ensures { result ≡ agree_of self.now other.now }
    {
        self.tag() != other.tag() || self.value.same(&other.value)
    }

    // The same register with zeros after the bytes of its value.
    pub fn trimmed(&self) -> Register
        ensures { result ≡ trimmed_of self.now }
    {
        Register {
            stamp: self.stamp,
            desk: self.desk,
            value: self.value.trimmed(),
        }
    }
}
