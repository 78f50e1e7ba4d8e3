//! Tests that cross crates: whole runs over a host in memory.
#![tactic(auto)]

#[cfg(test)]
mod audits;
#[cfg(test)]
mod bounds;
#[cfg(test)]
mod checks;
#[cfg(test)]
mod faults;
#[cfg(test)]
mod jobs;
#[cfg(test)]
mod limits;
#[cfg(test)]
mod models;
#[cfg(test)]
mod runs;
#[cfg(test)]
mod solves;
#[cfg(test)]
mod texts;
#[cfg(test)]
mod verifies;
