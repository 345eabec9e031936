// A card on loan is a card, so that a pair can be made of cards that their owners keep.
// Written for `&C` and again for `&mut C`, as std does. A bound `R: Deref` would cover both, but its contract relates a reference to what it shows, and gives no
// function that could name a card's contents.
ghost use Rattle.std.specs.Borrow.{GName};

use crate::fault::CardFault;
use crate::{Card, ReadCard};

impl<'a, C: ReadCard> ReadCard for &'a C {
    ghost contents = { λ card. C.contents card.now };

    fn count(&self) -> u32 {
        (*self).count()
    }

    fn read(&self, b: u32, buffer: &mut [u8]) -> Result<(), CardFault> {
        (*self).read(b, buffer)
    }

    ghost shaped = { λ card. C.shaped card.now };
}

impl<'a, C: ReadCard> ReadCard for &'a mut C {
    ghost contents = { λ card. C.contents card.now };

    fn count(&self) -> u32 {
        (**self).count()
    }

    fn read(&self, b: u32, buffer: &mut [u8]) -> Result<(), CardFault> {
        (**self).read(b, buffer)
    }

    ghost shaped = { λ card. C.shaped card.now };
}

impl<'a, C: Card> Card for &'a mut C {
    ghost Kept = { GName × C.Kept };

    ghost kept = { λ card. (card.ghost_name, C.kept card.now) };

    ghost worn = { λ kept. C.worn kept.1 };

    fn write(&mut self, b: u32, buffer: &[u8]) -> Result<(), CardFault> {
        (**self).write(b, buffer)
    }
}
