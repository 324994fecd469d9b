// What a message is written of.
use config::Config;
use message::Envelope;
use replica::Replica;

#[derive(Clone, Copy)]
pub(crate) struct Outgoing<'a> {
    pub config: &'a Config,
    pub envelope: &'a Envelope,
    pub replica: &'a Replica,
}
