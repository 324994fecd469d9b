// The refusals of paper 01, "Numbers handed out", and of paper 02. Every call that can refuse answers a `Result` with one of them.
ghost use Rattle.std.specs.Prelude.{◌≡◌};
ghost use Rattle.config.specs.Refusals.{number_of, meaning};

// Why a call refuses, each by its number. `number_of` gives the papers' number for each.
#[derive(Clone, Copy, Debug, PartialEq, Eq)]
pub enum Refusal {
    BadHouse = 1,
    Torn = 2,
    BadMap = 3,
    OddField = 4,
    Light = 5,
    Clash = 6,
    Stray = 7,
    Busy = 8,
    Idle = 9,
    Thin = 10,
    BadTransfer = 11,
    Spent = 12,
    Narrow = 13,
    Long = 14,
    BadStart = 15,
}

// The refusals in the order of their numbers.
const REFUSALS: [Refusal; 15] = [
    Refusal::BadHouse,
    Refusal::Torn,
    Refusal::BadMap,
    Refusal::OddField,
    Refusal::Light,
    Refusal::Clash,
    Refusal::Stray,
    Refusal::Busy,
    Refusal::Idle,
    Refusal::Thin,
    Refusal::BadTransfer,
    Refusal::Spent,
    Refusal::Narrow,
    Refusal::Long,
    Refusal::BadStart,
];

impl Refusal {
    pub fn number(self) -> u64
        ensures { result ≡ number_of self }
    {
        self as u64
    }

    // The way back from a number; none for 0 and for what is above the largest. It answers an `Option` and is no `TryFrom`, since 0 stands for no refusal and is
    // no error.
    pub fn of(number: u64) -> Option<Refusal>
        ensures { result ≡ meaning number }
    {
        match number {
            1..=15 => Some(REFUSALS[number as usize - 1]),
            _ => None,
        }
    }
}
