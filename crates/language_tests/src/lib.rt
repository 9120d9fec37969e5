//! Tests of the language and of what stands on it by public calls: texts, shapes, placements.
#![tactic(auto)]

#[cfg(test)]
mod built;
#[cfg(test)]
mod placements;
#[cfg(test)]
mod printed;
#[cfg(test)]
mod shapes;
#[cfg(test)]
mod texts;
