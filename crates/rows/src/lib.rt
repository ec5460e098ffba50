// What is searched, as tables of masks, and the support scan over a row of open releases.
#![tactic(auto)]

pub mod preference;
pub mod problem;
pub mod suits;
pub mod support;
pub mod weights;

// For each component, which of its releases are open. There is a mask for every component that there may be, whatever
// their number, since no memory is allocated (a rule of the project).
pub type Row = [u32; 64];
