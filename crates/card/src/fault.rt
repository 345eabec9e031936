// Why a card refuses, and the checks that it makes.
ghost use Rattle.std.specs.Prelude.{◌≡◌, Bool};
ghost use Rattle.card.specs.Faults.{checked, number_of};

// the bytes of a block
pub const BLOCK_SIZE: usize = 512;

// the most blocks that a card has
pub const MOST_BLOCKS: u32 = 16777216;

// A card's refusals, in the order in which it checks.
#[derive(Clone, Copy, Debug, PartialEq, Eq)]
pub enum CardFault {
    // the card has no block of that number
    OutOfRange = 1,
    // the buffer is not 512 bytes long
    WrongLength = 2,
    // the block is worn and takes no more writes
    Worn = 3,
}

impl CardFault {
    // a method with a name, and no `From`: `u32::from(fault)` would not say what number it is
    pub fn number(self) -> u32
        ensures { result ≡ number_of self }
    {
        self as u32
    }
}

// The first check that fails for a call on block `b` with a buffer of `len` bytes. A read is checked as a write to a block that is not worn.
pub fn check(count: u32, worn: bool, b: u32, len: usize) -> Result<(), CardFault>
    ensures { result ≡ checked count worn b len }
{
    if b >= count {
        return Err(CardFault::OutOfRange);
    }
    if len != BLOCK_SIZE {
        return Err(CardFault::WrongLength);
    }
    if worn {
        return Err(CardFault::Worn);
    }
    Ok(())
}
