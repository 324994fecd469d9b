// The number of an answer.
ghost use Rattle.std.specs.Prelude.{◌≡◌, ℤ, ◌<◌, IfOk, pos};
ghost use Rattle.host.specs.Codes.{refusal_code, answer_code, heard_number};

use config::Refusal;
use desk::Hearing;

// What has a number for a C host.
pub(crate) trait Code {
    // The values that have one, and the number of each.
    ghost has_number: { Self → Type 0 };

    ghost number_of: { Self → ℤ };

    fn code(self) -> i64
        requires { has_number self }
        ensures { result ≡ number_of self };
}

// Nothing but that the call was accepted.
impl Code for () {
    ghost has_number = { λ _. Unit {0} };

    ghost number_of = { λ _. pos 0 };

    fn code(self) -> i64 {
        0
    }
}

// 0 for a reply that was taken, 1 for one that came too late.
impl Code for Hearing {
    ghost has_number = { λ _. Unit {0} };

    ghost number_of = { heard_number };

    fn code(self) -> i64 {
        match self {
            Hearing::Taken => 0,
            Hearing::Late => 1,
        }
    }
}

// A signed number.
impl Code for i64 {
    ghost has_number = { λ _. Unit {0} };

    ghost number_of = { λ x. x };

    fn code(self) -> i64 {
        self
    }
}

// A number that fits into 64 signed bits.
impl Code for u64 {
    ghost has_number = { λ x. x < 9223372036854775808 };

    ghost number_of = { pos };

    fn code(self) -> i64 {
        self as i64
    }
}

// The number of a value, or −1,000,000 less that of a refusal.
pub(crate) fn of_answer<T: Code>(answer: Result<T, Refusal>) -> i64
    requires { IfOk answer T.has_number }
    ensures { result ≡ answer_code T.number_of answer }
{
    match answer {
        Ok(value) => value.code(),
        Err(r) => of_refusal(r),
    }
}

// −1,000,000 less the refusal's number.
fn of_refusal(refusal: Refusal) -> i64
    ensures { result ≡ refusal_code refusal }
{
    let code = 1000000 + refusal.number();
    0 - (code as i64)
}
