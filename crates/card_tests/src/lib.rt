// Cards as their users see them: clients over memory, a card of another kind, and the examples that cards are tested with.
#![tactic(auto)]

pub mod clients;
#[cfg(test)]
mod tests;
pub mod zero_card;
