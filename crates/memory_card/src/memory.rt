// A writing card over memory on loan.
ghost use Rattle.std.specs.Prelude.{◌≡◌};
ghost use Rattle.memory_card.specs.Blocks.{MemoryKept, blocks_of, rest_of};
ghost use Rattle.memory_card.specs.Stored.{blocks_shaped};
ghost use Rattle.memory_card.specs.Worn.{marked};

use crate::blocks::{count_blocks, read_block, write_block};
use crate::worn::WornList;
use card::fault::CardFault;
use card::{Card, ReadCard};

// As many whole blocks as fit into the memory, the listed ones worn.
#[derive(Drop)]
pub struct MemoryCard<'a> {
    memory: &'a mut [u8],
    worn: WornList,
}

impl<'a> MemoryCard<'a> {
    pub fn new(memory: &'a mut [u8], worn: WornList) -> MemoryCard<'a>
        ensures memory { result.memory.now ≡ memory.old }
        ensures lender { result.memory.ghost_name ≡ memory.entry.ghost_name }
        ensures worn { result.worn ≡ worn }
    {
        MemoryCard { memory, worn }
    }
}

// Two bodies of two lines, as in `read_only.rt`: one trait over both kinds of reference, with an impl for each, would be longer.
impl<'a> ReadCard for MemoryCard<'a> {
    ghost contents = { λ card. blocks_of card.memory.now };

    fn count(&self) -> u32 {
        count_blocks(self.memory)
    }

    fn read(&self, b: u32, buffer: &mut [u8]) -> Result<(), CardFault> {
        read_block(self.memory, b, buffer)
    }

    ghost shaped = { λ card. blocks_shaped card.memory.now };
}

impl<'a> Card for MemoryCard<'a> {
    ghost Kept = { MemoryKept };

    ghost kept = { λ card. record { lender = card.memory.ghost_name; rest = rest_of card.memory.now; worn = card.worn } };

    ghost worn = { λ kept. marked kept.worn };

    fn write(&mut self, b: u32, buffer: &[u8]) -> Result<(), CardFault> {
        let worn = self.worn.contains(b);
        write_block(self.memory, worn, b, buffer)
    }
}
