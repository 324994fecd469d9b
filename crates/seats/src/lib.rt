// Seats on offer (paper 01): in a block of seats a set bit is a seat sold.
#![tactic(auto)]

ghost use Rattle.std.specs.Prelude.{◌≡◌, ◌+◌, ◌≤◌};
ghost use Rattle.seats.specs.Offers.{free_in, offer_answer};

use config::Refusal;

// The longest block, in bytes.
const MOST_BLOCK: usize = 64;

// How many seats of a byte are sold. The sum is narrow, so that a compiler can add up several bytes at once.
fn sold_in(byte: u8) -> u16
    ensures { (result + free_in byte ≡ 8) × (result ≤ 8) }
{
    byte.count_ones() as u16
}

// How many seats of a block are on offer; 14 for a block over 64 bytes.
pub fn on_offer(block: &[u8]) -> Result<u64, Refusal>
    ensures { result ≡ offer_answer block.now }
{
    if MOST_BLOCK < block.len() {
        return Err(Refusal::Long);
    }
    let mut sold: u16 = 0;
    for byte in block {
        sold += sold_in(*byte);
    }
    let seats = 8 * block.len() as u64;
    Ok(seats - u64::from(sold))
}
