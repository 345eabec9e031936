// The kinds of places that a file has.
ghost use Rattle.std.specs.Prelude.{◌≡◌};
ghost use Rattle.calls.specs.Kinds.{kind_letter, kind_number};

#[derive(Clone, Copy, Debug, PartialEq, Eq)]
pub enum Kind {
    // on no block; reads as zeros
    Hole = 0,
    // on a block that the file has not written yet; reads as zeros
    Reserved = 1,
    // on a block that holds the place's bytes
    Written = 2,
}

impl Kind {
    // a method with a name, and no `From`: a kind has a letter to be shown as, too.
    // As at `CardFault`, and written again: no trait stands for the enums that `as` makes a number of
    pub fn number(self) -> u32
        ensures { result ≡ kind_number self }
    {
        self as u32
    }

    // the letter that a map shows; by a match, since the type's numbers are not the letters
    pub fn letter(self) -> u8
        ensures { result ≡ kind_letter self }
    {
        match self {
            Kind::Hole => b'h',
            Kind::Reserved => b'r',
            Kind::Written => b'w',
        }
    }
}
