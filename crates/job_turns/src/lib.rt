//! Jobs that take turns on one thread: each gives its items in its own order, as many as its turns allow, whatever
//! turns of others stand between them.
//!
//! A [`Job`] is seen by contracts as the list of the items that it has left and the stop that may stand behind them. A
//! [`Board`] is seen as how far each of its jobs has come: what was found, what is left, the stop, and whether the
//! job is finished. One [`Board::turn`] is the atomic step; [`Board::play`] gives a list of turns in order. The
//! crate stands on `std` alone. The layer above makes its searches jobs, and shares one board among them.
#![tactic(auto)]

mod board;
mod job;

pub use board::{Board, BoardFault, JobBoard, Turn, TurnEnd};
pub use job::Job;

#[cfg(test)]
mod tests;
