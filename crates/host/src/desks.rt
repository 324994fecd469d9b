// A desk's calls for a C host (paper 01, "Desk"). A record goes in by value and comes back by value beside the number of the answer; hear is also
// offered on a record that the host lends.
ghost use Rattle.std.specs.Prelude.{◌≡◌, []};
ghost use Rattle.config.specs.Cluster.{house_of};
ghost use Rattle.desk.specs.Operations.{reading, writing};
ghost use Rattle.desk.specs.Desks.{open_of};
ghost use Rattle.desk.specs.Begins.{begin_of, drop_of};
ghost use Rattle.desk.specs.Asks.{ask_of};
ghost use Rattle.desk.specs.Hears.{hear_of};
ghost use Rattle.desk.specs.Results.{result_of};
ghost use Rattle.desk.specs.Margins.{margin_of};
ghost use Rattle.host.specs.Codes.{number_code, signed_code, hearing_code};
ghost use Rattle.host.specs.Calls.{desk_code, heard_code, told_code};

use super::code::of_answer;
use desk::{Desk, DeskAnswer, hear_lent};
use replica::Register;

// 0, for a reply that came too late 1, or a refusal; and the record changed, or as it was where the answer is not 0.
#[repr(C)]
#[derive(Clone, Copy)]
pub struct AnsweredDesk {
    pub answer: i64,
    pub desk: Desk,
}

impl From<DeskAnswer> for AnsweredDesk {
    ghost from_gives = { λ a r. r ≡ desk_code a };

    fn from(answer: DeskAnswer) -> AnsweredDesk {
        let DeskAnswer { verdict, desk } = answer;
        AnsweredDesk {
            answer: of_answer(verdict),
            desk,
        }
    }
}

// 0, or a refusal; and the result of an operation: its restarts, its kind (1 read, 2 write), its tag and value. Every field is 0 beside a refusal.
#[repr(C)]
#[derive(Clone, Copy)]
pub struct AnsweredResult {
    pub answer: i64,
    pub restarts: u32,
    pub kind: u32,
    pub register: Register,
}

// A fresh record for desk `number` of a cluster of n servers, of which f may crash and which start with the weights listed.
#[unsafe(no_mangle)]
pub extern "C" fn tovridsa_open_desk(n: u64, f: u64, number: u64, starts: &[u64]) -> AnsweredDesk
    ensures { result ≡ desk_code (open_of (house_of n f starts.now) number) }
{
    AnsweredDesk::from(Desk::open(n, f, number, starts))
}

// Begins a read, with a note, or 0 for none.
#[unsafe(no_mangle)]
pub extern "C" fn tovridsa_begin_read(desk: Desk, note: u32) -> AnsweredDesk
    ensures { result ≡ desk_code (begin_of desk reading [] note) }
{
    let mut desk = desk;
    let verdict = desk.begin_read_lent(note);
    AnsweredDesk {
        answer: of_answer(verdict),
        desk,
    }
}

// Begins a write of a value, with a note, or 0 for none.
#[unsafe(no_mangle)]
pub extern "C" fn tovridsa_begin_write(desk: Desk, note: u32, value: &[u8]) -> AnsweredDesk
    ensures { result ≡ desk_code (begin_of desk writing value.now note) }
{
    let mut desk = desk;
    let verdict = desk.begin_write_lent(note, value);
    AnsweredDesk {
        answer: of_answer(verdict),
        desk,
    }
}

// Writes a request to a server into a buffer from a place on: the place after it.
#[unsafe(no_mangle)]
pub extern "C" fn tovridsa_ask(desk: Desk, server: u64, out: &mut [u8], at: usize) -> i64
    ensures { (result ≡ number_code (ask_of desk server out.old at).answer) × (out.new ≡ (ask_of desk server out.old at).out) }
{
    of_answer(desk.ask(server, out, at))
}

// Takes a server's reply.
#[unsafe(no_mangle)]
pub extern "C" fn tovridsa_hear(desk: Desk, msg: &[u8]) -> AnsweredDesk
    ensures { result ≡ heard_code (hear_of desk msg.now) }
{
    let mut desk = desk;
    let hearing = desk.listen(msg);
    AnsweredDesk {
        answer: of_answer(hearing),
        desk,
    }
}

// The same on a record that the host lends and finds changed, or as it was where the answer is not 0.
#[unsafe(no_mangle)]
pub extern "C" fn tovridsa_hear_lent(desk: &mut Desk, msg: &[u8]) -> i64
    ensures { (result ≡ hearing_code (hear_of desk.old msg.now).hearing) × (desk.new ≡ (hear_of desk.old msg.now).desk) }
{
    of_answer(hear_lent(desk, msg))
}

// The result of the operation that ended since the last begin.
#[unsafe(no_mangle)]
pub extern "C" fn tovridsa_result(desk: Desk) -> AnsweredResult
    ensures { result ≡ told_code (result_of desk) }
{
    match desk.result() {
        Ok(told) => AnsweredResult {
            answer: 0,
            restarts: told.restarts,
            kind: u32::from(told.kind),
            register: told.register,
        },
        Err(r) => AnsweredResult {
            answer: of_answer::<()>(Err(r)),
            restarts: 0,
            kind: 0,
            register: Register::start(),
        },
    }
}

// How far the operation that runs is from a quorum: twice the weight of the servers that answered in this round, on the desk's own sheet, less W.
#[unsafe(no_mangle)]
pub extern "C" fn tovridsa_margin(desk: Desk) -> i64
    ensures { result ≡ signed_code (margin_of desk) }
{
    of_answer(desk.margin())
}

// Ends the operation that runs without a result.
#[unsafe(no_mangle)]
pub extern "C" fn tovridsa_drop(desk: Desk) -> AnsweredDesk
    ensures { result ≡ desk_code (drop_of desk) }
{
    let mut desk = desk;
    let verdict = desk.drop_lent();
    AnsweredDesk {
        answer: of_answer(verdict),
        desk,
    }
}
