//! The hosts: one in memory, for tests, and the real one.
#![tactic(auto)]

mod count;
mod draft;
mod file;
mod gate;
mod memory;
mod node;
mod output;
mod paths;
mod real;
mod rooms;
mod seat;

pub use memory::MemoryHost;
pub use real::RealHost;
