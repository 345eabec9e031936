// A reading card over read-only memory.
ghost use Rattle.std.specs.Prelude.{◌≡◌};
ghost use Rattle.memory_card.specs.Blocks.{blocks_of};
ghost use Rattle.memory_card.specs.Stored.{blocks_shaped};

use crate::blocks::{count_blocks, read_block};
use card::ReadCard;
use card::fault::CardFault;

// As many whole blocks as fit into the memory.
#[derive(Clone, Copy)]
pub struct ReadOnlyCard<'a> {
    memory: &'a [u8],
}

impl<'a> ReadOnlyCard<'a> {
    pub fn new(memory: &'a [u8]) -> ReadOnlyCard<'a>
        ensures { result.memory.now ≡ memory.now }
    {
        ReadOnlyCard { memory }
    }
}

// Two bodies of two lines, as in `memory.rt`: one trait over both kinds of reference, with an impl for each, would be longer.
impl<'a> ReadCard for ReadOnlyCard<'a> {
    ghost contents = { λ card. blocks_of card.memory.now };

    fn count(&self) -> u32 {
        count_blocks(self.memory)
    }

    fn read(&self, b: u32, buffer: &mut [u8]) -> Result<(), CardFault> {
        read_block(self.memory, b, buffer)
    }

    ghost shaped = { λ card. blocks_shaped card.memory.now };
}
