// What a call on a volume answers where it is granted, and the number of each answer.
ghost use Rattle.std.specs.Prelude.{◌≡◌};
ghost use Rattle.calls.specs.Answers.{answer_number};

use crate::kind::Kind;
use crate::refusal::Refusal;

#[derive(Clone, Copy, Debug, PartialEq, Eq)]
pub enum Answer {
    // granted, and nothing more to tell
    Done,
    // reserve: granted, on blocks in so many rows
    Pieces { count: u32 },
    // find: the kind and the block of the place (0 for a hole), and how many places its extent has from this one on
    Found { kind: Kind, block: u32, rest: u32 },
    // length: the number of places
    Places { count: u32 },
    // tally: how many blocks are free, how long the longest free run is, how many entries are spare
    Tallied { free: u32, longest: u32, spare: u32 },
    // map: the bytes that its lines took
    Bytes { count: u32 },
}

// 0 where a call was granted, else the number of the refusal
pub fn number<T>(answer: &Result<T, Refusal>) -> u32
    ensures { result ≡ answer_number answer.now }
{
    match answer {
        Ok(_) => 0,
        Err(why) => why.number(),
    }
}
