// Comparing the blocks of two cards.
ghost use Rattle.card_copy.specs.Compares.{Compared};

use card::ReadCard;
use card::fault::{BLOCK_SIZE, CardFault};

// Whether block `b` of a card holds the same bytes as block `d` of another (four arguments, as in `copy_block`).
pub fn same_block<P: ReadCard, Q: ReadCard>(
    one: &P,
    b: u32,
    other: &Q,
    d: u32,
) -> Result<bool, CardFault>
    ensures { Compared (P.contents one.now) (Q.contents other.now) b d result }
{
    let mut left = [0u8; BLOCK_SIZE];
    let mut right = [0u8; BLOCK_SIZE];
    one.read(b, &mut left)?;
    other.read(d, &mut right)?;
    Ok(left == right)
}
