// Copying and comparing blocks between any two cards.
#![tactic(auto)]

pub mod compare;
pub mod copy;
