// The calls on a volume, with the numbers that each is given. A call that takes a buffer is lent it beside these.
// Fields, and no struct of a file and a range in five of them: each rule matches its own call, and a struct would only put one more name before each number.
#[derive(Clone, Copy, Debug, PartialEq, Eq)]
pub enum Call {
    // puts `count` holes before place `at`
    Insert { file: u32, at: u32, count: u32 },
    // takes the places from `at` on out
    Collapse { file: u32, at: u32, count: u32 },
    // turns the places from `at` on into holes
    Punch { file: u32, at: u32, count: u32 },
    // turns holes into reserved places, on blocks in one row
    ReserveWhole { file: u32, at: u32, count: u32 },
    // turns holes into reserved places, on blocks in as few rows as can be
    ReserveSplit { file: u32, at: u32, count: u32 },
    // stores the buffer on the block of a place
    Write { file: u32, at: u32 },
    // fills the buffer with what a place holds
    Read { file: u32, at: u32 },
    // asks for the kind and the block of a place, and how far its extent goes on
    Find { file: u32, at: u32 },
    // asks for the number of places
    Length { file: u32 },
    // asks for free blocks, longest free run and spare entries
    Tally,
    // writes a line for each extent into the buffer
    Map { file: u32 },
    // empties the file
    Drop { file: u32 },
}
