// What the store is asked and what it answers: the types that its rules, its contracts and its programs share.
#![tactic(auto)]

pub mod answer;
pub mod call;
pub mod kind;
pub mod refusal;
