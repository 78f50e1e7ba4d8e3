//! Tests of loads of pair rows: what blocks a candidate, which rows are loaded, and the note that is written.
#![tactic(auto)]

#[cfg(test)]
mod loads;
#[cfg(test)]
mod notes;
#[cfg(test)]
mod searches;
