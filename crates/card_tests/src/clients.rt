// Work on memory through cards: who lends the memory learns what it then holds.
// So each takes the memory and its worn list, and no card of both, and says that the rest of the memory is as before: that is of two states, and no type holds it.
ghost use Rattle.std.specs.Prelude.{◌≡◌, [], length};
ghost use Rattle.memory_card.specs.Blocks.{blocks_of, rest_of};
ghost use Rattle.card.specs.Cards.{Written};
ghost use Rattle.card_copy.specs.Copies.{RangeCopied};
ghost use Rattle.pair_card.specs.Pairs.{both_blocks, both_worn, hidden_blocks};
ghost use Rattle.memory_card.specs.Worn.{marked};

use card::fault::CardFault;
use card::{Card, ReadCard};
use card_copy::copy::{CopyRange, Stopped, copy};
use memory_card::memory::MemoryCard;
use memory_card::read_only::ReadOnlyCard;
use memory_card::worn::WornList;
use pair_card::PairCard;

// Writes a block through a card over this memory.
pub fn write_memory(
    memory: &mut [u8],
    worn: WornList,
    b: u32,
    buffer: &[u8],
) -> Result<(), CardFault>
    ensures written { Written (blocks_of memory.old) (marked worn b) b buffer.now (blocks_of memory.new) result }
    ensures rest { rest_of memory.new ≡ rest_of memory.old }
{
    let mut card = MemoryCard::new(memory, worn);
    card.write(b, buffer)
}

// Copies blocks of one memory to another.
pub fn copy_memory(
    from: &[u8],
    to: &mut [u8],
    worn: WornList,
    range: CopyRange,
) -> Result<(), Stopped>
    ensures rest { rest_of to.new ≡ rest_of to.old }
    ensures copied { RangeCopied (blocks_of from.now) (blocks_of to.old) (marked worn) range
        (blocks_of to.new) result }
{
    let source = ReadOnlyCard::new(from);
    let mut target = MemoryCard::new(to, worn);
    copy(&source, &mut target, range)
}

// Copies blocks to two cards as one. The pair is made where its cards are on loan, so that each owner knows its own again.
pub fn copy_to_both<S: ReadCard, P: Card, Q: Card>(
    from: &S,
    first: &mut P,
    second: &mut Q,
    range: CopyRange,
) -> Result<(), Stopped>
    ensures copied { RangeCopied (S.contents from.now)
        (both_blocks (P.contents first.old) (Q.contents second.old))
        (both_worn (length (P.contents first.old)) (P.worn (P.kept first.old)) (Q.worn (Q.kept second.old)))
        range (both_blocks (P.contents first.new) (Q.contents second.new)) result }
    ensures count { length (P.contents first.new) ≡ length (P.contents first.old) }
    ensures hidden { hidden_blocks (P.contents first.new) (Q.contents second.new)
        ≡ hidden_blocks (P.contents first.old) (Q.contents second.old) }
    ensures first { P.kept first.new ≡ P.kept first.old }
    ensures second { Q.kept second.new ≡ Q.kept second.old }
{
    let mut pair = PairCard::new(first, second);
    copy(from, &mut pair, range)
}

// Copies blocks of one memory to two others as one.
pub fn copy_to_memories(
    from: &[u8],
    one: &mut [u8],
    two: &mut [u8],
    range: CopyRange,
) -> Result<(), Stopped>
    ensures copied { RangeCopied (blocks_of from.now)
        (both_blocks (blocks_of one.old) (blocks_of two.old))
        (both_worn (length (blocks_of one.old)) (marked []) (marked []))
        range (both_blocks (blocks_of one.new) (blocks_of two.new)) result }
    ensures hidden { hidden_blocks (blocks_of one.new) (blocks_of two.new)
        ≡ hidden_blocks (blocks_of one.old) (blocks_of two.old) }
    ensures rest_one { rest_of one.new ≡ rest_of one.old }
    ensures rest_two { rest_of two.new ≡ rest_of two.old }
{
    let source = ReadOnlyCard::new(from);
    let mut first = MemoryCard::new(one, WornList::none());
    let mut second = MemoryCard::new(two, WornList::none());
    copy_to_both(&source, &mut first, &mut second, range)
}
