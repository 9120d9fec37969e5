//! Tests of the ends of the program, and runs of the whole over files in memory.
#![tactic(auto)]

#[cfg(test)]
mod channels;
#[cfg(test)]
mod counting;
#[cfg(test)]
mod ends;
#[cfg(test)]
mod lowering;
#[cfg(test)]
mod runs;
