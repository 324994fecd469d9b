// A line's house in the store: its config, and its servers and desks as they are opened.
use config::Config;
use desk::{Desk, DeskAnswer};
use script::House;
use server::{Server, ServerAnswer};

// What a call on messages is handed.
pub(crate) fn config_of(house: &House) -> Config {
    Config::given(house.n, house.f, house.kept())
}

// A server of the house, fresh.
pub(crate) fn open_server(house: &House, number: u64) -> ServerAnswer {
    Server::open(house.n, house.f, number, house.kept())
}

// A desk of the house, fresh.
pub(crate) fn open_desk(house: &House, number: u64) -> DeskAnswer {
    Desk::open(house.n, house.f, number, house.kept())
}
