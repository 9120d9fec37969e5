//! The commands of the program, as one call over a shelf of files and a sink of bytes.
#![tactic(auto)]

mod answer;
mod check;
mod count;
pub mod limits;
mod lines;
mod lower;
mod number;
mod print;
mod running;
mod shapes;
mod status;
mod tables;
mod witness;
mod words;

pub use running::{HELP, run};
pub use status::Status;
