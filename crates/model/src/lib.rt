// The rules of the store as a reference model, and what is shown of them. The rules stand in specs/; no program runs them.
#![tactic(auto)]

pub mod laws;
