//! Tests of libraries on instances that are built from lists.
#![tactic(auto)]

#[cfg(test)]
mod derivations;
#[cfg(test)]
mod drafts;
#[cfg(test)]
mod instances;
#[cfg(test)]
mod matchings;
#[cfg(test)]
mod models;
#[cfg(test)]
mod tables;
