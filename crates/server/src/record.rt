// The record of a server, and how one is opened.
ghost use Rattle.std.specs.Prelude.{◌≡◌};
ghost use Rattle.config.specs.Cluster.{house_of};
ghost use Rattle.server.specs.Servers.{fits as fits_of, blank_server, open_of};

use config::{Config, Refusal};
use replica::Replica;

#[repr(C)]
#[derive(Clone, Copy)]
pub struct Server {
    pub config: Config,
    pub number: u64,
    pub replica: Replica,
}

// What a call hands back: the record changed, or as it was where the verdict is a refusal. A host gets the record either way, so the two stand side by side.
#[derive(Clone, Copy)]
pub struct ServerAnswer {
    pub verdict: Result<(), Refusal>,
    pub server: Server,
}

impl Server {
    // A fresh record for server `number` of n, of which f may crash and which start with the weights listed: 1 where n, f or the number is out of bounds, then
    // 15 where the list is not lawful; and a record with every field 0.
    #[tactic(auto, unfolding(crate::specs::Servers::open_of, config::specs::Answers::start_answer))]
    pub fn open(n: u64, f: u64, number: u64, starts: &[u64]) -> ServerAnswer
        ensures { result ≡ open_of (house_of n f starts.now) number }
    {
        let config = Config::given(n, f, starts);
        if let Err(r) = config.start(number) {
            return ServerAnswer {
                verdict: Err(r),
                server: Server::blank(),
            };
        }
        ServerAnswer {
            verdict: Ok(()),
            server: Server {
                config,
                number,
                replica: Replica::fresh(),
            },
        }
    }

    // The record test: whether every field is within the paper's bounds and the ledger is not light.
    #[tactic(auto, unfolding(crate::specs::Servers::fits))]
    pub fn fits(&self) -> bool
        ensures { result ≡ fits_of self.now }
    {
        self.config.has(self.number) && self.replica.fits(&self.config)
    }

    // The record with every field 0, which stands beside a refusal to open one.
    fn blank() -> Server
        ensures { result ≡ blank_server }
    {
        Server {
            config: Config::none(),
            number: 0,
            replica: Replica::fresh(),
        }
    }
}
