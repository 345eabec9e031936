// Examples of each card, as tables of calls with what they answer.
use crate::clients::{copy_memory, copy_to_memories};
use crate::zero_card::ZeroCard;
use card::fault::CardFault;
use card::fault::CardFault::{OutOfRange, Worn, WrongLength};
use card::{Card, ReadCard};
use card_copy::compare::same_block;
use card_copy::copy::CopyFault::{Read, Write};
use card_copy::copy::{CopyFault, CopyRange, Stopped};
use memory_card::memory::MemoryCard;
use memory_card::read_only::ReadOnlyCard;
use memory_card::worn::{TooManyWorn, WornList};
use pair_card::PairCard;
use std::alloc::AllocError;
use std::process::Abort;

// A call on a card, by its block and the length of its buffer. A write's buffer is full of one byte.
// Data, and no closures: a table of these is one literal, whose rows are as short as can be.
#[derive(Clone, Copy)]
enum Call {
    Read(u32, usize),
    Write(u32, usize, u8),
}

// What a read answers, and the first byte of its buffer, which was 99. The buffer has 600 bytes, more than any row asks for, since there is no heap here.
fn read<C: ReadCard>(card: &C, b: u32, len: usize) -> (Result<(), CardFault>, u8) {
    let mut buffer = [99u8; 600];
    let answer = card.read(b, &mut buffer[..len.min(600)]);
    (answer, buffer[0])
}

// The same of any call, with a buffer of as many: after a write, the byte written.
fn perform<C: Card>(card: &mut C, call: Call) -> (Result<(), CardFault>, u8) {
    match call {
        Call::Read(b, len) => read(&*card, b, len),
        Call::Write(b, len, byte) => {
            let buffer = [byte; 600];
            (card.write(b, &buffer[..len.min(600)]), byte)
        }
    }
}

// The calls, one after the other, have to answer as the table says.
fn answers<C: Card>(rt: &impl Abort, card: &mut C, table: &[(Call, Result<(), CardFault>, u8)]) {
    for (call, answer, byte) in table {
        assert_eq!(rt; perform(card, *call), (*answer, *byte));
    }
}

// The card has to have so many blocks, some with the first bytes of the table, and the next block is to be out of range.
fn holds<C: ReadCard>(rt: &impl Abort, card: &C, count: u32, table: &[(u32, u8)]) {
    assert_eq!(rt; card.count(), count);
    for (b, byte) in table {
        assert_eq!(rt; read(card, *b, 512), (Ok(()), *byte));
    }
    assert_eq!(rt; read(card, count, 512), (Err(OutOfRange), 99));
}

fn memory_holds(rt: &impl Abort, memory: &[u8], count: u32, table: &[(u32, u8)]) {
    holds(rt, &ReadOnlyCard::new(memory), count, table);
}

#[test]
fn memory_has_the_blocks_that_fit(rt: HostRuntime) {
    let memory = [7u8; 1025];
    for (len, count) in [
        (0, 0),
        (511, 0),
        (512, 1),
        (513, 1),
        (1023, 1),
        (1024, 2),
        (1025, 2),
    ] {
        memory_holds(&rt, &memory[0..len], count, &[]);
    }
    memory_holds(&rt, &memory, 2, &[(0, 7), (1, 7)]);
}

#[test]
fn memory_of_less_than_a_block_refuses_every_call(rt: HostRuntime) {
    let mut memory = [0u8; 511];
    let mut card = MemoryCard::new(&mut memory, WornList::none());
    holds(&rt, &card, 0, &[]);
    answers(
        &rt,
        &mut card,
        &[
            (Call::Write(0, 512, 5), Err(OutOfRange), 5),
            (Call::Write(u32::MAX, 0, 5), Err(OutOfRange), 5),
        ],
    );
}

#[test]
fn checks_come_in_their_order(rt: HostRuntime) -> Result<(), TooManyWorn> {
    let mut memory = [3u8; 1536];
    let mut card = MemoryCard::new(&mut memory, WornList::new(&[1])?);
    answers(
        &rt,
        &mut card,
        &[
            (Call::Read(0, 0), Err(WrongLength), 99),
            (Call::Read(0, 511), Err(WrongLength), 99),
            (Call::Read(0, 513), Err(WrongLength), 99),
            (Call::Read(3, 513), Err(OutOfRange), 99),
            (Call::Write(1, 0, 4), Err(WrongLength), 4),
            (Call::Write(1, 511, 4), Err(WrongLength), 4),
            (Call::Write(1, 513, 4), Err(WrongLength), 4),
            (Call::Write(1, 512, 4), Err(Worn), 4),
            (Call::Write(3, 511, 4), Err(OutOfRange), 4),
            (Call::Write(2, 512, 5), Ok(()), 5),
        ],
    );
    memory_holds(&rt, &memory, 3, &[(0, 3), (1, 3), (2, 5)]);
    Ok(())
}

#[test]
fn sixteen_blocks_may_be_worn(rt: HostRuntime) -> Result<(), TooManyWorn> {
    let numbers = [0, 1, 2, 3, 4, 5, 6, 7, 8, 9, 10, 11, 12, 13, 14, 99, 15];
    assert!(rt; WornList::new(&numbers) == Err(TooManyWorn));
    let list = WornList::new(&numbers[..16])?;
    assert!(rt; list.contains(0) && list.contains(14) && list.contains(99) && !list.contains(15));
    assert!(rt; !WornList::none().contains(0));
    Ok(())
}

#[test]
fn too_many_worn_blocks_are_named(rt: HostRuntime) -> Result<(), AllocError> {
    let text = format!(in rt.alloc(); "{TooManyWorn}")?;
    assert!(rt; text.as_str() == "more than 16 worn blocks");
    Ok(())
}

#[test]
fn a_pair_has_the_blocks_of_both(rt: HostRuntime) -> Result<(), TooManyWorn> {
    let mut one = [1u8; 1024];
    let mut two = [2u8; 1024];
    let mut pair = PairCard::new(
        MemoryCard::new(&mut one, WornList::new(&[1])?),
        MemoryCard::new(&mut two, WornList::new(&[0])?),
    );
    holds(&rt, &pair, 4, &[(0, 1), (1, 1), (2, 2), (3, 2)]);
    answers(
        &rt,
        &mut pair,
        &[
            (Call::Read(3, 511), Err(WrongLength), 99),
            (Call::Write(0, 512, 10), Ok(()), 10),
            (Call::Write(1, 512, 11), Err(Worn), 11),
            (Call::Write(2, 512, 12), Err(Worn), 12),
            (Call::Write(3, 512, 13), Ok(()), 13),
            (Call::Write(4, 511, 14), Err(OutOfRange), 14),
        ],
    );
    memory_holds(&rt, &one, 2, &[(0, 10), (1, 1)]);
    memory_holds(&rt, &two, 2, &[(0, 2), (1, 13)]);
    Ok(())
}

#[test]
fn a_pair_of_pairs_is_a_card(rt: HostRuntime) {
    let mut one = [1u8; 512];
    let mut two = [2u8; 1024];
    let mut last = ZeroCard::new(1);
    let first = PairCard::new(
        MemoryCard::new(&mut one, WornList::none()),
        MemoryCard::new(&mut two, WornList::none()),
    );
    let mut cards = PairCard::new(first, &mut last);
    answers(
        &rt,
        &mut cards,
        &[
            (Call::Write(2, 512, 20), Ok(()), 20),
            (Call::Write(3, 512, 30), Err(Worn), 30),
        ],
    );
    holds(
        &rt,
        &PairCard::new(&cards, ReadOnlyCard::new(&[4; 512])),
        5,
        &[(0, 1), (1, 2), (2, 20), (3, 0), (4, 4)],
    );
}

#[test]
fn every_card_stops_at_the_most_blocks(rt: HostRuntime) {
    let mut pair = PairCard::new(ZeroCard::new(16777210), ZeroCard::new(100));
    holds(&rt, &pair, 16777216, &[(16777215, 0)]);
    answers(
        &rt,
        &mut pair,
        &[
            (Call::Write(16777215, 512, 1), Err(Worn), 1),
            (Call::Write(16777216, 512, 1), Err(OutOfRange), 1),
        ],
    );
    holds(
        &rt,
        &PairCard::new(&pair, ZeroCard::new(u32::MAX)),
        16777216,
        &[(16777215, 0)],
    );
}

// The answer of a copy that stopped after so many blocks.
fn stop(copied: u32, fault: CopyFault) -> Result<(), Stopped> {
    Err(Stopped { copied, fault })
}

// Copies to this memory, one after the other, have to answer as the table says.
fn stops(
    rt: &impl Abort,
    from: &[u8],
    to: &mut [u8],
    list: WornList,
    table: &[(CopyRange, Result<(), Stopped>)],
) {
    for (range, answer) in table {
        assert_eq!(rt; copy_memory(from, to, list, *range), *answer);
    }
}

// `count` blocks from block `first` on, to the blocks from `start` on.
fn range(first: u32, count: u32, start: u32) -> CopyRange {
    CopyRange {
        first,
        start,
        count,
    }
}

#[test]
fn a_copy_stops_at_the_first_refusal(rt: HostRuntime) -> Result<(), TooManyWorn> {
    let mut target = [0u8; 2560];
    stops(
        &rt,
        &[5; 2048],
        &mut target,
        WornList::new(&[3])?,
        &[
            (range(0, 4, 1), stop(2, Write(Worn))),
            (range(2, 3, 0), stop(2, Read(OutOfRange))),
            (range(0, 2, 4), stop(1, Write(OutOfRange))),
            (range(9, 0, 9), Ok(())),
            (range(u32::MAX, u32::MAX, 0), stop(0, Read(OutOfRange))),
            (range(0, u32::MAX, u32::MAX), stop(0, Write(OutOfRange))),
        ],
    );
    memory_holds(&rt, &target, 5, &[(0, 5), (1, 5), (2, 5), (3, 0), (4, 5)]);
    Ok(())
}

#[test]
fn a_copy_goes_across_the_seam_of_a_pair(rt: HostRuntime) {
    let mut one = [0u8; 1024];
    let mut two = [0u8; 1024];
    assert_eq!(rt;
        copy_to_memories(&[5; 1024], &mut one, &mut two, range(0, 2, 1)),
        Ok(())
    );
    memory_holds(&rt, &one, 2, &[(0, 0), (1, 5)]);
    memory_holds(&rt, &two, 2, &[(0, 5), (1, 0)]);
}

// Blocks have to compare as the table says.
fn compares(
    rt: &impl Abort,
    one: &[u8],
    other: &[u8],
    table: &[(u32, u32, Result<bool, CardFault>)],
) {
    let (one, other) = (ReadOnlyCard::new(one), ReadOnlyCard::new(other));
    for (b, d, answer) in table {
        assert_eq!(rt; same_block(&one, *b, &other, *d), *answer);
    }
}

#[test]
fn blocks_are_compared_byte_by_byte(rt: HostRuntime) {
    let mut other = [5u8; 1024];
    other[1023] = 6;
    compares(
        &rt,
        &[5; 1024],
        &other,
        &[
            (0, 0, Ok(true)),
            (1, 0, Ok(true)),
            (0, 1, Ok(false)),
            (2, 0, Err(OutOfRange)),
            (0, 2, Err(OutOfRange)),
        ],
    );
}
