// Two archives that are made from rows.
#![tactic(auto)]

pub mod components;
pub mod index;
pub mod pair;
pub mod range;
