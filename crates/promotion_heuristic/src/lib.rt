//! A first matching by deferred acceptance, in which a resident that was refused by its whole list gets one more try, ahead
//! of equals that had no need of one. After Király.
#![tactic(auto)]

mod first;
mod queues;
mod rounds;
mod standing;
mod tenant;
mod turning;

pub use first::promote;
