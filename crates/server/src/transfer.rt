// A server hands weight to another (paper 01, "Server": Transfer).
ghost use Rattle.std.specs.Prelude.{◌≡◌};
ghost use Rattle.server.specs.Transfers.{transfer_of};

use super::record::{Server, ServerAnswer};
use config::Refusal;

impl Server {
    // Gives `amount` to `taker`: 1 for the record, 11 for a taker that is this server or ≥ n or an amount of 0, 12 where the count is at its end, 10
    // where the rest isn't above the floor by this server's own ledger.
    pub fn transfer(self, taker: u64, amount: u64) -> ServerAnswer
        ensures { result ≡ transfer_of self taker amount }
    {
        let mut server = self;
        let verdict = server.give(taker, amount);
        ServerAnswer { verdict, server }
    }

    // The same on a record that is lent, which is left as it was where the verdict is a refusal. The register is tested here; the ledger's `give` tests the
    // cluster, the number and the ledger.
    #[tactic(auto, using(crate::proofs::Transfers::giving))]
    pub fn give(&mut self, taker: u64, amount: u64) -> Result<(), Refusal>
        ensures { (result ≡ (transfer_of self.old taker amount).verdict) × (self.new ≡ (transfer_of self.old taker amount).server) }
    {
        if !self.replica.register.fits(&self.config) {
            return Err(Refusal::BadHouse);
        }
        self.replica
            .ledger
            .give(&self.config, self.number, taker, amount)
    }
}
