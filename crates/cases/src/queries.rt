// What is asked of a message, a block or a map. A check, a weight, a quorum and seats are answered by the number that a C host gets.
use super::print::{Answer, Code, Hex};
use config::Config;
use ledger::count_named;
use reader::{check, quorum, value, weight};
use script::Query;
use seats::on_offer;
use std::io;

pub(crate) fn ask_about(
    out: &impl Print,
    config: &Config,
    query: Query,
    bytes: &[u8],
) -> io::Result<()> {
    match query {
        Query::Check => out.print(Code(check(config, bytes).map(|()| 0))),
        Query::Weight(server) => out.print(Code(weight(config, server, bytes))),
        Query::Quorum(map) => out.print(Code(quorum(config, map, bytes))),
        Query::Seats => out.print(Code(on_offer(bytes))),
        Query::Named(map) => out.print(Answer(count_named(config, map))),
        Query::Value => out.print(Hex(value(config, bytes))),
    }
}
