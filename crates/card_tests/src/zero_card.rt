// A card of any size that takes no memory: blocks of zeros, all of them worn.
ghost use Rattle.std.specs.Prelude.{◌≡◌, ◌≤◌, min, true};
ghost use Rattle.card_tests.specs.Zeros.{zeros, zeros_shaped};

use card::fault::{BLOCK_SIZE, CardFault, MOST_BLOCKS, check};
use card::{Card, ReadCard};

#[derive(Clone, Copy, Debug, PartialEq, Eq)]
pub struct ZeroCard {
    count: u32,
    ghost few: { count ≤ 16777216 },
}

impl ZeroCard {
    // A card of so many blocks, or of the most that a card has.
    pub fn new(count: u32) -> ZeroCard
        ensures { result.count ≡ min count 16777216 }
    {
        ZeroCard {
            count: count.min(MOST_BLOCKS),
        }
    }
}

impl ReadCard for ZeroCard {
    ghost contents = { λ card. zeros card.count };

    fn count(&self) -> u32 {
        self.count
    }

    #[tactic(auto, using(crate::proofs::Zeroing::steps))]
    fn read(&self, b: u32, buffer: &mut [u8]) -> Result<(), CardFault> {
        check(self.count, false, b, buffer.len())?;
        buffer.copy_from_slice(&[0; BLOCK_SIZE]);
        Ok(())
    }

    ghost shaped = { λ card. zeros_shaped card.count card.few };
}

impl Card for ZeroCard {
    ghost Kept = { Unit {0} };

    ghost kept = { λ _. tt };

    ghost worn = { λ _ _. true };

    #[tactic(auto, using(crate::proofs::Zeroing::steps))]
    fn write(&mut self, b: u32, buffer: &[u8]) -> Result<(), CardFault> {
        check(self.count, true, b, buffer.len())
    }
}
