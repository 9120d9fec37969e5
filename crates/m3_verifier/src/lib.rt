//! The verdict on a proof, by its bytes alone.

#![tactic(auto)]

mod halt;
mod judging;
mod queries;
mod reader;
mod reading;
mod verified;
mod verify_stop;
mod walk;

pub use halt::{Halt, Stopped};
pub use judging::judge;
pub use reader::Reader;
pub use reading::read_through;
pub use verified::{Refusal, Verified};
pub use verify_stop::VerifyStop;
pub use walk::first_walk;
