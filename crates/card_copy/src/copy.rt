// Copies from any card to any writing card.
ghost use Rattle.std.specs.Prelude.{◌≡◌, ◌+◌, ◌-◌, min};
ghost use Rattle.card_copy.specs.Copies.{BlockCopied, RangeCopied};

use card::fault::{BLOCK_SIZE, CardFault};
use card::{Card, ReadCard};

// `count` blocks from block `first` of one card on, to the blocks from `start` on of another.
#[derive(Clone, Copy, Debug, PartialEq, Eq)]
pub struct CopyRange {
    pub first: u32,
    pub start: u32,
    pub count: u32,
}

impl CopyRange {
    // Its first `n` blocks.
    pub fn take(self, n: u32) -> CopyRange
        ensures { result ≡ record self { count = min self.count n } }
    {
        CopyRange {
            count: self.count.min(n),
            ..self
        }
    }

    // What is left of it behind its first `n` blocks.
    pub fn skip(self, n: u32) -> CopyRange
        ensures first { result.first ≡ min u32.MAX (self.first + n) }
        ensures start { result.start ≡ min u32.MAX (self.start + n) }
        ensures count { result.count ≡ self.count - n }
    {
        CopyRange {
            first: self.first.saturating_add(n),
            start: self.start.saturating_add(n),
            count: self.count.saturating_sub(n),
        }
    }
}

// Which call of a copy was refused.
#[derive(Clone, Copy, Debug, PartialEq, Eq)]
pub enum CopyFault {
    Read(CardFault),
    Write(CardFault),
}

// Where a copy stopped: after so many blocks, at this refusal of the next.
#[derive(Clone, Copy, Debug, PartialEq, Eq)]
pub struct Stopped {
    pub copied: u32,
    pub fault: CopyFault,
}

// Copies block `b` of a card to block `d` of another, or leaves the other as it was.
// Cards and numbers are arguments: a struct of both would have to lend its card anew for each block.
pub fn copy_block<S: ReadCard, D: Card>(
    from: &S,
    b: u32,
    to: &mut D,
    d: u32,
) -> Result<(), CopyFault>
    ensures copied { BlockCopied (S.contents from.now) (D.contents to.old) (D.worn (D.kept to.old)) b d
        (D.contents to.new) result }
    // passed on from `write`
    ensures kept { D.kept to.new ≡ D.kept to.old }
{
    let mut buffer = [0u8; BLOCK_SIZE];
    from.read(b, &mut buffer).map_err(CopyFault::Read)?;
    to.write(d, &buffer).map_err(CopyFault::Write)
}

// Copies a range of blocks, in order, up to the first refusal.
#[tactic(auto, using(crate::proofs::Copying::steps))]
pub fn copy<S: ReadCard, D: Card>(from: &S, to: &mut D, range: CopyRange) -> Result<(), Stopped>
    ensures copied { RangeCopied (S.contents from.now) (D.contents to.old) (D.worn (D.kept to.old))
        range (D.contents to.new) result }
    // passed on from `write`
    ensures kept { D.kept to.new ≡ D.kept to.old }
{
    // `try_for_each` was tried: of the card between its calls a proof knows nothing, so not even that these sums fit
    for copied in 0..range.count {
        copy_block(from, range.first + copied, to, range.start + copied).map_err(|fault| Stopped {
            copied,
            fault,
        })?;
    }
    Ok(())
}
