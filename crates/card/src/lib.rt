// Cards of 512-byte blocks, by what they hold.
#![tactic(auto)]

ghost use Rattle.std.specs.Prelude.{◌≡◌, ℕ, Bool, List, length};
ghost use Rattle.card.specs.Cards.{Read, Shaped, Written};

pub mod fault;
pub mod lent;

use fault::CardFault;

// A card that can be read.
pub trait ReadCard {
    // its blocks in order, each as its bytes
    ghost contents: { Self → List (List ℕ) };

    // How many blocks the card has.
    fn count(&self) -> u32
        ensures { result ≡ length (contents self.now) };

    // Copies block `b` into the buffer, or refuses and leaves the buffer as it was.
    fn read(&self, b: u32, buffer: &mut [u8]) -> Result<(), CardFault>
        ensures { Read (contents self.now) b buffer.old buffer.new result };

    // A law, which every implementation proves: at most 2^24 blocks of 512 bytes each.
    ghost shaped: { (card : Self) → Shaped (contents card) };
}

// A reading card that can be written, too. Some of its blocks may be worn: a write to one is refused, a read is not.
pub trait Card: ReadCard {
    // what no call changes: the references by which the card reaches what it was lent, what of that is in no block, and what says
    // which blocks are worn. Who lent it knows it again by this
    ghost Kept: { Type 0 };

    ghost kept: { Self → Kept };

    // which blocks are worn: as what no call changes says, so that no block ever gets worn or sound
    ghost worn: { Kept → ℕ → Bool };

    // Stores the buffer as block `b`, or refuses and leaves the card as it was.
    fn write(&mut self, b: u32, buffer: &[u8]) -> Result<(), CardFault>
        ensures written { Written (Self.contents self.old) (worn (kept self.old) b) b buffer.now
            (Self.contents self.new) result }
        // of the card before and after, so no type can hold it: whoever writes to a card passes it on
        ensures kept { kept self.new ≡ kept self.old };
}
