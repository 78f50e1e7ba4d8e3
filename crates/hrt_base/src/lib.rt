//! What every crate of the program shares: the ports and the host that reads and writes them, numbers as text, literals
//! and terms, the numbers of pairs and rows, want of memory, and the count of steps.
#![tactic(auto)]

mod failure;
mod host;
mod literal;
mod number;
mod numbered;
mod port;
mod steps;
mod whole;

pub use failure::{Failed, NoMemory, ReadEnd, WriteEnd};
pub use host::{Begun, Host};
pub use literal::{Lit, Term, Value};
pub use number::{NumberText, capped_value, read_number, write_number};
pub use numbered::{PairNo, RowNo};
pub use port::Port;
pub use steps::Steps;
pub use whole::{read_all, write_all};
