//! The program over any host: the words, the commands, the reports, and the codes that it ends with.
#![tactic(auto)]

mod answer;
mod auditing;
mod budget;
mod checking;
mod claims;
mod matches;
mod modeling;
mod program;
mod proving;
mod refusals;
mod report;
mod status;
mod stop;
mod verifying;
mod words;

use answer::{Answer, explain};
use budget::Budget;
pub use program::run;
use report::Report;
use status::{Status, exit_code};
use stop::Ended;
use words::{Command, command_of};
