// An archive over another one, with notices that bar more.
#![tactic(auto)]

pub mod layer;
pub mod notice;
