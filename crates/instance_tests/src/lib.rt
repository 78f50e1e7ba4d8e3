//! Tests over some hundred small instances: what the crates compute against definitions written out plainly once more.
#![tactic(auto)]

#[cfg(test)]
mod bounds;
#[cfg(test)]
mod definition;
#[cfg(test)]
mod instances;
#[cfg(test)]
mod points;
#[cfg(test)]
mod promotions;
#[cfg(test)]
mod reductions;
#[cfg(test)]
mod runs;
