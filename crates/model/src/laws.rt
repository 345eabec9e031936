// What is shown of the rules: the contract of each function is a theorem, for every volume and every list of calls. The functions themselves do nothing.
// One for each law, so that each is proved, and can fail, alone. Where a law names no lemma here, its proof is a file of proofs/laws: by `using` the check does not find it.
ghost use Rattle.model.specs.Exact.{ExtentsExact, RunsExact};
ghost use Rattle.model.specs.Examples.{Examples};
ghost use Rattle.model.specs.Frames.{OthersStay, RefusalsLeave};
ghost use Rattle.model.specs.Grounds.{RefusalsTrue};
ghost use Rattle.model.specs.History.{Contents};
ghost use Rattle.model.specs.Limits.{Builds, FewRuns, LimitsKept};
ghost use Rattle.model.specs.Ownership.{OneOwner};
ghost use Rattle.model.specs.Pieces.{FewestPieces};
ghost use Rattle.model.specs.Queries.{QueriesRight};
ghost use Rattle.model.specs.Ranges.{RangeCalls};
ghost use Rattle.model.specs.Replay.{OneByOne};

// One more call is answered by the store that the calls before it left.
#[tactic(auto, using(crate::proofs::Running::one_by_one))]
pub fn one_by_one()
    ensures { OneByOne }
{}

// Every block of the volume is free, or in one place of one file.
#[tactic(auto, using(crate::proofs::Owners::one_owner))]
pub fn one_owner()
    ensures { OneOwner }
{}

// A granted reserve has the fewest pieces that any choice of free blocks has, and takes its blocks as ruled.
pub fn fewest_pieces()
    ensures { FewestPieces }
{}

// Length and read tell what the calls and their answers say.
pub fn contents()
    ensures { Contents }
{}

// A refused call changes neither the store nor the buffer.
#[tactic(auto, using(crate::proofs::Leaving::refusals_leave))]
pub fn refusals_leave()
    ensures { RefusalsLeave }
{}

// A call changes no file but the one that it is on.
#[tactic(auto, using(crate::proofs::Leaving::others_stay))]
pub fn others_stay()
    ensures { OthersStay }
{}

// Each granted call does to its file what its manual says, place by place.
pub fn range_calls()
    ensures { RangeCalls }
{}

// A call is refused for the first ground that holds, and granted where none does.
pub fn refusals_true()
    ensures { RefusalsTrue }
{}

// Find, length, tally and map answer what the lists say.
pub fn queries_right()
    ensures { QueriesRight }
{}

// The extents of a file are the only longest stretches that stand for its places.
#[tactic(auto, using(crate::proofs::ExactExtents::extents_exact))]
pub fn extents_exact()
    ensures { ExtentsExact }
{}

// The free runs are the only longest rows that have just the free blocks.
#[tactic(auto, using(crate::proofs::ExactRuns::runs_exact))]
pub fn runs_exact()
    ensures { RunsExact }
{}

// Files, places and extents keep within their limits.
#[tactic(auto, using(crate::proofs::Limits::limits_kept))]
pub fn limits_kept()
    ensures { LimitsKept }
{}

// The free runs are at most one more than the extents that own blocks.
#[tactic(auto, using(crate::proofs::Few::few_runs))]
pub fn few_runs()
    ensures { FewRuns }
{}

// A volume is built just where its sizes and its card allow it.
#[tactic(auto, using(crate::proofs::Building::builds))]
pub fn builds()
    ensures { Builds }
{}

// What the rules say, by example.
pub fn examples()
    ensures { Examples }
{}
