// Machine words as sets of small numbers: a number is in a word when its bit is set. Bits are argued about here and
// nowhere else.
#![tactic(auto)]

pub mod word;
mod word32;
mod word64;
