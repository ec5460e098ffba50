// The search for some set nearer than a limit: rows of open releases are narrowed, cut by the bound, and split.
#![tactic(auto)]

use rows::problem::Problem;

pub mod below;
mod choose;
pub mod found;
mod lower;
mod whole;

// A problem, with the bound that cuts the descents through it. Weights stay beside it: they change with every descent,
// and no contract has to say that the problem is the same after one.
#[derive(Drop)]
pub struct Descent<'a, B> {
    pub problem: &'a Problem,
    pub bound: &'a B,
}
