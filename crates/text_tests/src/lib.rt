//! Tests of the readers of texts: instances, pairs, models and lines of proofs.
#![tactic(auto)]

#[cfg(test)]
mod instances;
#[cfg(test)]
mod lines;
#[cfg(test)]
mod models;
