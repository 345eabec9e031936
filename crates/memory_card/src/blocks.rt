// A memory as blocks: the calls that every card over memory shares.
// A block is a range of bytes, and no element of `as_chunks`: of `as_chunks_mut` no contract says what the memory then holds, and
// a read that says "block" in another way than the write beside it would be no plainer.
ghost use Rattle.std.specs.Prelude.{◌≡◌, length};
ghost use Rattle.memory_card.specs.Blocks.{blocks_of, rest_of};
ghost use Rattle.card.specs.Cards.{Read, Written};

use card::fault::{BLOCK_SIZE, CardFault, MOST_BLOCKS, check};

// How many whole blocks fit.
#[tactic(auto, using(crate::specs::Stored::length_blocks))]
pub(crate) fn count_blocks(memory: &[u8]) -> u32
    ensures { result ≡ length (blocks_of memory.now) }
{
    (memory.len() / BLOCK_SIZE).min(MOST_BLOCKS as usize) as u32
}

#[tactic(auto, using(crate::proofs::Storing::reads))]
pub(crate) fn read_block(memory: &[u8], b: u32, buffer: &mut [u8]) -> Result<(), CardFault>
    ensures { Read (blocks_of memory.now) b buffer.old buffer.new result }
{
    check(count_blocks(memory), false, b, buffer.len())?;
    let start = b as usize * BLOCK_SIZE;
    buffer.copy_from_slice(&memory[start..start + BLOCK_SIZE]);
    Ok(())
}

#[tactic(auto, using(crate::proofs::Storing::writes))]
pub(crate) fn write_block(
    memory: &mut [u8],
    worn: bool,
    b: u32,
    buffer: &[u8],
) -> Result<(), CardFault>
    ensures written { Written (blocks_of memory.old) worn b buffer.now (blocks_of memory.new) result }
    // of the memory before and after, so no type can hold it
    ensures rest { rest_of memory.new ≡ rest_of memory.old }
{
    check(count_blocks(memory), worn, b, buffer.len())?;
    let start = b as usize * BLOCK_SIZE;
    memory[start..start + BLOCK_SIZE].copy_from_slice(buffer);
    Ok(())
}
