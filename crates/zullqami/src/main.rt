// The recorder's tool. So far it does one task: it copies a recording from read-only memory to a card, around worn blocks, and reads it back.
#![tactic(auto)]

mod tally;
mod transfer;

use card::fault::BLOCK_SIZE;
use card::{Card, ReadCard};
use memory_card::memory::MemoryCard;
use memory_card::read_only::ReadOnlyCard;
use memory_card::worn::WornList;
use pair_card::PairCard;
use std::alloc::{AllocError, Global};
use tally::Tally;
use transfer::{probe, transfer, verify};

fn main(rt: HostRuntime) -> anyhow::Result<()> {
    run(&rt, rt.alloc())
}

// A recording of 12 blocks, and a card of 16 in two memories with three blocks worn.
fn run(rt: &impl Print, heap: Global) -> anyhow::Result<()> {
    let bytes = make_recording(heap, 12)?;
    let mut one = vec![in heap; 0u8; 4096]?;
    let mut two = vec![in heap; 0u8; 4096]?;
    let mut first = MemoryCard::new(&mut one, WornList::new(&[3])?);
    let mut second = MemoryCard::new(&mut two, WornList::new(&[0, 1])?);
    let mut card = PairCard::new(&mut first, &mut second);
    move_to_card(&ReadOnlyCard::new(&bytes), &mut card, Tally::new(rt, heap))
}

// Copies the recording to the card, asks the card for what it must refuse, and reads the recording back.
fn move_to_card<S: ReadCard, D: Card, R: Print>(
    recording: &S,
    card: &mut D,
    mut tally: Tally<R>,
) -> anyhow::Result<()> {
    println!(tally.rt;
        "recording: {} blocks in read-only memory",
        recording.count()
    )?;
    println!(tally.rt;
        "card: {} blocks in two memories, some of them worn",
        card.count()
    )?;
    transfer(recording, card, &mut tally)?;
    probe(card, &mut tally)?;
    println!(tally.rt;
        "copied {}, refused {}, verified {}",
        tally.copied(),
        tally.refused,
        verify(recording, &*card, tally.ranges.as_slice())
    )?;
    Ok(())
}

// So many blocks, no two of them alike.
fn make_recording(heap: Global, blocks: u8) -> Result<Vec<u8>, AllocError> {
    (0..blocks)
        .flat_map(|block| (0..BLOCK_SIZE).map(move |i| block.wrapping_add((i % 256) as u8)))
        .collect(heap)
}
