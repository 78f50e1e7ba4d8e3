//! Tests of conflict analysis: a case worked by hand, and searches over some hundred small instances that end in a row that holds nowhere.
#![tactic(auto)]

#[cfg(test)]
mod analyses;
#[cfg(test)]
mod instances;
#[cfg(test)]
mod searches;
#[cfg(test)]
mod systems;
