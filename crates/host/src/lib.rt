// The functions that a C host calls. Here are those about messages and blocks (paper 01, "Desk", last paragraph): message check, weight, quorum and seats on
// offer; `servers` and `desks` have the calls on records. The calls on messages are given a cluster as n, f and the list of its start weights (paper 02,
// N2). An answer is a signed number: what was asked for, or for a refusal −1,000,000 less its number. include/tovridsa.h declares all of them to C.
#![tactic(auto)]

mod code;
mod desks;
mod servers;

ghost use Rattle.std.specs.Prelude.{◌≡◌};
ghost use Rattle.config.specs.Cluster.{house_of, config_of};
ghost use Rattle.host.specs.Codes.{check_code, weight_code, quorum_code, seats_code};

use code::of_answer;
use config::Config;
use reader::{check, quorum, weight};
use seats::on_offer;

// 0 for a message that passes.
#[unsafe(no_mangle)]
#[tactic(auto, unfolding(crate::specs::Codes::check_code))]
pub extern "C" fn tovridsa_check(n: u64, f: u64, starts: &[u64], msg: &[u8]) -> i64
    ensures { result ≡ check_code (config_of (house_of n f starts.now)) msg.now }
{
    of_answer(check(&Config::given(n, f, starts), msg))
}

// The weight of a server on a message's sheet.
#[unsafe(no_mangle)]
#[tactic(auto, unfolding(crate::specs::Codes::weight_code))]
pub extern "C" fn tovridsa_weight(n: u64, f: u64, starts: &[u64], server: u64, msg: &[u8]) -> i64
    ensures { result ≡ weight_code (config_of (house_of n f starts.now)) server msg.now }
{
    of_answer(weight(&Config::given(n, f, starts), server, msg))
}

// Twice the weight of the servers that a map names on a message's sheet, less W: above 0 they are a quorum.
#[unsafe(no_mangle)]
#[tactic(auto, unfolding(crate::specs::Codes::quorum_code))]
pub extern "C" fn tovridsa_quorum(n: u64, f: u64, starts: &[u64], map: u64, msg: &[u8]) -> i64
    ensures { result ≡ quorum_code (config_of (house_of n f starts.now)) map msg.now }
{
    of_answer(quorum(&Config::given(n, f, starts), map, msg))
}

// How many seats of a block are on offer.
#[unsafe(no_mangle)]
#[tactic(auto, unfolding(crate::specs::Codes::seats_code))]
pub extern "C" fn tovridsa_seats(block: &[u8]) -> i64
    ensures { result ≡ seats_code block.now }
{
    of_answer(on_offer(block))
}
