// Tables of cases, with expected values from the rules in docs/ARCHIVES.md, or for a word from the bits that are set in
// it, and never from a run.
#![tactic(auto)]

#[cfg(test)]
mod build;
#[cfg(test)]
mod ignored;
#[cfg(test)]
mod layers;
#[cfg(test)]
mod limits;
#[cfg(test)]
mod numbers;
#[cfg(test)]
mod sets;
#[cfg(test)]
mod words;
