// Two cards joined into one.
#![tactic(auto)]

ghost use Rattle.std.specs.Prelude.{◌≡◌, ◌+◌, min, length};
ghost use Rattle.card.specs.Sizes.{most_blocks};
ghost use Rattle.pair_card.specs.Pairs.{PairKept, both_blocks, both_worn, hidden_blocks, place_of};
ghost use Rattle.pair_card.specs.Paired.{both_shaped};

use card::fault::{CardFault, MOST_BLOCKS};
use card::{Card, ReadCard};

// The blocks of the first card, then those of the second, up to the most that a card has.
#[derive(Drop)]
pub struct PairCard<P, Q> {
    first: P,
    second: Q,
}

// Which of the two cards has a block of the pair, and under which number.
#[derive(Clone, Copy, Debug, PartialEq, Eq)]
enum Place {
    First(u32),
    Second(u32),
}

impl<P, Q> PairCard<P, Q> {
    pub fn new(first: P, second: Q) -> PairCard<P, Q>
        ensures first { result.first ≡ first }
        ensures second { result.second ≡ second }
    {
        PairCard { first, second }
    }
}

impl<P: ReadCard, Q: ReadCard> PairCard<P, Q> {
    // The place of block `b`, which the pair may not have.
    fn locate(&self, b: u32) -> Result<Place, CardFault>
        ensures { result
            ≡ place_of (length (P.contents self.now.first)) (length (Q.contents self.now.second)) b }
    {
        let first = self.first.count();
        if b >= joined_count(first, self.second.count()) {
            return Err(CardFault::OutOfRange);
        }
        if b < first {
            Ok(Place::First(b))
        } else {
            Ok(Place::Second(b - first))
        }
    }
}

impl<P: ReadCard, Q: ReadCard> ReadCard for PairCard<P, Q> {
    ghost contents = { λ card. both_blocks (P.contents card.first) (Q.contents card.second) };

    #[tactic(auto, using(crate::specs::Paired::length_both))]
    fn count(&self) -> u32 {
        joined_count(self.first.count(), self.second.count())
    }

    #[tactic(auto, using(crate::proofs::Pairing::reads))]
    fn read(&self, b: u32, buffer: &mut [u8]) -> Result<(), CardFault> {
        match self.locate(b)? {
            Place::First(k) => self.first.read(k, buffer),
            Place::Second(k) => self.second.read(k, buffer),
        }
    }

    ghost shaped = { λ card. both_shaped _ _ (P.shaped card.first) (Q.shaped card.second) };
}

impl<P: Card, Q: Card> Card for PairCard<P, Q> {
    ghost Kept = { PairKept P.Kept Q.Kept };

    ghost kept = { λ card. record {
      first = P.kept card.first;
      second = Q.kept card.second;
      count = length (P.contents card.first);
      hidden = hidden_blocks (P.contents card.first) (Q.contents card.second);
    } };

    ghost worn = { λ kept. both_worn kept.count (P.worn kept.first) (Q.worn kept.second) };

    // the choice of `read` again: one place for both would have to hand a card out, as `&` to the one and as `&mut` to the other
    #[tactic(auto, using(crate::proofs::Pairing::writes))]
    fn write(&mut self, b: u32, buffer: &[u8]) -> Result<(), CardFault> {
        match self.locate(b)? {
            Place::First(k) => self.first.write(k, buffer),
            Place::Second(k) => self.second.write(k, buffer),
        }
    }
}

// How many blocks two cards have together, at most as many as a card has.
fn joined_count(first: u32, second: u32) -> u32
    ensures { result ≡ min most_blocks (first + second) }
{
    first.saturating_add(second).min(MOST_BLOCKS)
}
