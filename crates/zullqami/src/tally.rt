// What a transfer came to, printed as it goes on.
use card::fault::CardFault;
use card_copy::copy::CopyRange;
use std::alloc::Global;
use std::fmt;

// A stretch of the recording that was copied, for printing. An empty one would show blocks that it does not have.
#[derive(Clone, Copy)]
struct Shown(CopyRange);

impl fmt::Display for Shown {
    fn fmt<W: fmt::Write>(&self, f: &mut fmt::Formatter<W>) -> fmt::Result {
        let front = self.0;
        let last = front.skip(front.count.saturating_sub(1));
        write!(
            f,
            "recording {}-{} -> card {}-{}",
            front.first, last.first, front.start, last.start
        )
    }
}

// A refusal: of which call, at which block.
#[derive(Clone, Copy)]
pub(crate) struct Refused<'a> {
    pub call: &'a str,
    pub block: u32,
    pub fault: CardFault,
}

impl<'a> fmt::Display for Refused<'a> {
    fn fmt<W: fmt::Write>(&self, f: &mut fmt::Formatter<W>) -> fmt::Result {
        let Refused { call, block, fault } = *self;
        write!(
            f,
            "{call} block {block}: refused, number {}",
            fault.number()
        )
    }
}

// The stretches copied, how many refusals there were, and where both are printed.
#[derive(Drop)]
pub(crate) struct Tally<'a, R> {
    pub rt: &'a R,
    pub ranges: Vec<CopyRange>,
    pub refused: u32,
}

impl<'a, R: Print> Tally<'a, R> {
    pub(crate) fn new(rt: &'a R, heap: Global) -> Tally<'a, R> {
        Tally {
            rt,
            ranges: Vec::new(heap),
            refused: 0,
        }
    }

    // How many blocks were copied.
    pub(crate) fn copied(&self) -> u32 {
        self.ranges
            .iter()
            .fold(0u32, |sum, range| sum.saturating_add(range.count))
    }

    // Notes and prints a stretch that was copied, unless it is empty.
    pub(crate) fn note_copied(&mut self, range: CopyRange) -> anyhow::Result<()> {
        if range.count == 0 {
            return Ok(());
        }
        println!(self.rt; "{}", Shown(range))?;
        self.ranges.push(range)?;
        Ok(())
    }

    // Counts and prints a refusal.
    pub(crate) fn note_refused(&mut self, refused: Refused) -> anyhow::Result<()> {
        println!(self.rt; "{refused}")?;
        self.refused = self.refused.saturating_add(1);
        Ok(())
    }
}
