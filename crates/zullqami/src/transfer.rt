// Copying a recording to a card around the card's worn blocks, and reading it back.
// The recording and the card are two arguments: a struct of two references would save a word in each of three calls.
use crate::tally::{Refused, Tally};
use card::fault::{BLOCK_SIZE, CardFault};
use card::{Card, ReadCard};
use card_copy::compare::same_block;
use card_copy::copy::{CopyFault, CopyRange, copy};

// Copies the recording to the card in order, past each worn block, until all of it is there or another refusal ends it.
#[tactic(auto, using(card_copy::proofs::Copying::worn_within))]
pub(crate) fn transfer<S: ReadCard, D: Card, R: Print>(
    recording: &S,
    card: &mut D,
    tally: &mut Tally<R>,
) -> anyhow::Result<()> {
    let mut left = CopyRange {
        first: 0,
        start: 0,
        count: recording.count(),
    };
    while let Err(stop) = copy(recording, card, left) {
        tally.note_copied(left.take(stop.copied))?;
        left = left.skip(stop.copied);
        let refused = match stop.fault {
            CopyFault::Read(fault) => Refused {
                call: "read of recording",
                block: left.first,
                fault,
            },
            CopyFault::Write(fault) => Refused {
                call: "write of card",
                block: left.start,
                fault,
            },
        };
        tally.note_refused(refused)?;
        // only a worn block can be passed
        if stop.fault != CopyFault::Write(CardFault::Worn) {
            return Ok(());
        }
        left.start = left.start.saturating_add(1);
    }
    tally.note_copied(left)
}

// Asks the card for two things that it must refuse: a block past its last, and a block of fewer than 512 bytes.
pub(crate) fn probe<D: Card, R: Print>(card: &mut D, tally: &mut Tally<R>) -> anyhow::Result<()> {
    let mut buffer = [0u8; BLOCK_SIZE];
    let block = card.count();
    if let Err(fault) = card.read(block, &mut buffer) {
        let call = "read of card";
        tally.note_refused(Refused { call, block, fault })?;
    }
    if let Err(fault) = card.write(0, &buffer[..511]) {
        let (call, block) = ("write of 511 bytes to card", 0);
        tally.note_refused(Refused { call, block, fault })?;
    }
    Ok(())
}

// How many blocks of these ranges are on the card as they are in the recording.
pub(crate) fn verify<S: ReadCard, D: ReadCard>(
    recording: &S,
    card: &D,
    ranges: &[CopyRange],
) -> u32 {
    ranges.iter().fold(0u32, |sum, range| {
        sum.saturating_add(same_blocks(recording, card, *range))
    })
}

fn same_blocks<S: ReadCard, D: ReadCard>(recording: &S, card: &D, range: CopyRange) -> u32 {
    (0..range.count)
        .filter(|k| {
            let one = range.skip(*k);
            same_block(recording, one.first, card, one.start) == Ok(true)
        })
        .count() as u32
}
