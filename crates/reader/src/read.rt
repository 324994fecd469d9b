// The calls.
ghost use Rattle.std.specs.Prelude.{◌≡◌};
ghost use Rattle.message.specs.Answers.{check_answer, message_answer, taken_answer, taken_ledger, fields_answer, value_answer};
ghost use Rattle.reader.specs.Weighings.{weight_in, quorum_in};

use super::keep::Nothing;
use super::tally::Tally;
use super::whole::read_message;
use config::{Config, Refusal};
use ledger::Ledger;
use message::{Fields, Message, Taken};
use replica::Replica;

// The message check: 1 or 15 for the cluster, then the first fault of the message.
pub fn check(config: &Config, msg: &[u8]) -> Result<(), Refusal>
    ensures { result ≡ check_answer config.now msg.now }
{
    read_message(config, msg, &mut Nothing, &mut Tally::none())?;
    Ok(())
}

// What a message says: its envelope and its replica, or the refusal that `check` gives.
pub fn receive(config: &Config, msg: &[u8]) -> Result<Message, Refusal>
    ensures { result ≡ message_answer config.now msg.now }
{
    let mut ledger = Ledger::fresh();
    let taken = receive_into(config, msg, &mut ledger)?;
    Ok(Message {
        envelope: taken.envelope,
        replica: Replica {
            ledger,
            register: taken.register,
        },
    })
}

// The same with the ledger into one that is lent, whatever it held before: beside a refusal it has the rows that were read before the fault.
pub fn receive_into(config: &Config, msg: &[u8], ledger: &mut Ledger) -> Result<Taken, Refusal>
    ensures { (result ≡ taken_answer config.now msg.now) × (ledger.new ≡ taken_ledger config.now msg.now) }
{
    *ledger = Ledger::fresh();
    let found = read_message(config, msg, ledger, &mut Tally::none())?;
    Ok(Taken {
        envelope: found.envelope,
        register: found.register.kept(),
    })
}

// What `receive` says of a message, but for the value.
pub fn fields(config: &Config, msg: &[u8]) -> Result<Fields, Refusal>
    ensures { result ≡ fields_answer config.now msg.now }
{
    let Message { envelope, replica } = receive(config, msg)?;
    Ok(Fields {
        envelope,
        tag: replica.register.tag(),
        ledger: replica.ledger,
    })
}

// The register's value, as a part of the message; empty without a register, and wherever `check` refuses.
pub fn value<'a>(config: &Config, msg: &'a [u8]) -> &'a [u8]
    ensures { result.now ≡ value_answer config.now msg.now }
{
    let Ok(found) = read_message(config, msg, &mut Nothing, &mut Tally::none()) else {
        return &msg[..0];
    };
    found.register.value
}

// The weight of a server on a message's sheet: the refusal that `check` gives, then 1 for the server.
pub fn weight(config: &Config, server: u64, msg: &[u8]) -> Result<i64, Refusal>
    ensures { result ≡ weight_in config.now server msg.now }
{
    let mut sums = Tally::none();
    read_message(config, msg, &mut Nothing, &mut sums)?;
    if config.n <= server {
        return Err(Refusal::BadHouse);
    }
    Ok(sums.weight(config, server))
}

// Twice the weight of the servers that a map names on a message's sheet, less W, which is above zero where they are a quorum: the refusal that `check`
// gives, then 1 for the map.
pub fn quorum(config: &Config, map: u64, msg: &[u8]) -> Result<i64, Refusal>
    ensures { result ≡ quorum_in config.now map msg.now }
{
    let mut sums = Tally::none();
    read_message(config, msg, &mut Nothing, &mut sums)?;
    if map >> (config.n as u32) != 0 {
        return Err(Refusal::BadHouse);
    }
    Ok(sums.margin(config, map))
}
