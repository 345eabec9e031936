// Why the store refuses, in the order of the numbers.
ghost use Rattle.std.specs.Prelude.{◌≡◌};
ghost use Rattle.calls.specs.Refusals.{refusal_number};

use card::fault::CardFault;

#[derive(Clone, Copy, Debug, PartialEq, Eq)]
pub enum Refusal {
    // the size of a volume, or a table of it, is outside its limits
    OutsideLimits,
    // the card has fewer blocks than the volume
    SmallCard,
    // there is no file of that number
    NoFile,
    // the count is 0
    NoCount,
    // the range or the place does not lie in the file
    OutOfFile,
    // the file would have too many places
    TooLong,
    // the buffer does not have the length that the call needs
    WrongBuffer,
    // a place to be reserved is no hole, or a place to be written is one
    WrongKind,
    // too few blocks are free
    NoSpace,
    // too few free blocks stand in a row
    NoRun,
    // the free blocks lie in too many pieces
    TooManyPieces,
    // too few entries of the extent table are spare
    NoEntries,
    // the card refused, for this fault, at this block
    Card { fault: CardFault, block: u32 },
    // the catalogue does not fit behind the volume
    NoCatalogueRoom,
    // the card holds no catalogue that can be read
    BadCatalogue,
    // the catalogue has more records than the extent table has entries
    TooManyRecords,
    // this record is the first that is wrong, counted from 0
    WrongRecord { index: u32 },
}

impl Refusal {
    // by a match: a type whose cases have fields can have no numbers of its own
    pub fn number(self) -> u32
        ensures { result ≡ refusal_number self }
    {
        match self {
            Refusal::OutsideLimits => 1,
            Refusal::SmallCard => 2,
            Refusal::NoFile => 3,
            Refusal::NoCount => 4,
            Refusal::OutOfFile => 5,
            Refusal::TooLong => 6,
            Refusal::WrongBuffer => 7,
            Refusal::WrongKind => 8,
            Refusal::NoSpace => 9,
            Refusal::NoRun => 10,
            Refusal::TooManyPieces => 11,
            Refusal::NoEntries => 12,
            Refusal::Card { .. } => 13,
            Refusal::NoCatalogueRoom => 14,
            Refusal::BadCatalogue => 15,
            Refusal::TooManyRecords => 16,
            Refusal::WrongRecord { .. } => 17,
        }
    }
}
