// Cards over memory: on loan, and read-only.
#![tactic(auto)]

mod blocks;
pub mod memory;
pub mod read_only;
pub mod worn;
