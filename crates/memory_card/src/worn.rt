// The worn blocks of a memory card.
ghost use Rattle.std.specs.Prelude.{◌≡◌, ◌<◌, ◌≤◌, [], length, MatchResult, Some, codes};
ghost use Rattle.memory_card.specs.Worn.{marked};

use std::error::Error;
use std::fmt;
use std::marker::Model;

// the most worn blocks that a list has
pub const MOST_WORN: usize = 16;

// More numbers were given than a list has. Its text is by hand, since the libraries here stand on std alone.
#[derive(Clone, Copy, Debug, PartialEq, Eq)]
pub struct TooManyWorn;

impl fmt::Display for TooManyWorn {
    ghost output = { λ _. Some (codes "more than 16 worn blocks") };

    fn fmt<W: fmt::Write>(&self, f: &mut fmt::Formatter<W>) -> fmt::Result {
        write!(f, "more than 16 worn blocks")
    }
}

impl Error for TooManyWorn {}

// Up to 16 numbers of worn blocks. They are given when the list is made, and never change.
// An array with its count: a card has no heap, and an `ArrayVec` is not `Copy`, where one list may be given to several cards.
#[derive(Clone, Copy, Debug, PartialEq, Eq)]
pub struct WornList {
    numbers: [u32; MOST_WORN],
    count: usize,
}

// A clause sees the list of the numbers.
impl Model for WornList {
    ghost use Rattle.std.specs.Prelude.{ℕ, List, length, take};
    ghost use Rattle.memory_card.specs.Worn.{IsKept, filled_up};

    ghost Value = { List ℕ };

    ghost view = { λ w. take w.count w.numbers };

    ghost invariant = { λ w. IsKept w.numbers w.count };

    // the view tells every field, which `Copy` asks for
    ghost inverse = { λ xs. record { numbers = filled_up xs; count = length xs } };
}

impl WornList {
    // The list of these numbers, unless they are more than 16.
    pub fn new(numbers: &[u32]) -> Result<WornList, TooManyWorn>
        ensures { MatchResult result (λ w. (length numbers.now ≤ 16) × (w ≡ numbers.now))
            (λ _. 16 < length numbers.now) }
    {
        let count = numbers.len();
        if count > MOST_WORN {
            return Err(TooManyWorn);
        }
        let mut kept = [0; MOST_WORN];
        kept[..count].copy_from_slice(numbers);
        Ok(WornList {
            numbers: kept,
            count,
        })
    }

    // The empty list: no block is worn.
    pub fn none() -> WornList
        ensures { result ≡ [] }
    {
        WornList {
            numbers: [0; MOST_WORN],
            count: 0,
        }
    }

    // Whether block `b` is worn.
    pub fn contains(&self, b: u32) -> bool
        ensures { result ≡ marked self.now b }
    {
        self.numbers[..self.count].contains(&b)
    }
}
