//! Tests of public calls of the lower crates, with each growth of memory refused in turn. A crate
//! with tests is proved twice, so they are in a crate of their own.
#![tactic(auto)]

#[cfg(test)]
mod cells;
#[cfg(test)]
mod chains;
#[cfg(test)]
mod code;
#[cfg(test)]
mod documents;
#[cfg(test)]
mod driving;
#[cfg(test)]
mod edits;
#[cfg(test)]
mod growths;
#[cfg(test)]
mod hosts;
#[cfg(test)]
mod inbox;
#[cfg(test)]
mod pieces;
#[cfg(test)]
mod programs;
#[cfg(test)]
mod runs;
#[cfg(test)]
mod stamps;
#[cfg(test)]
mod stats;
#[cfg(test)]
mod texts;
#[cfg(test)]
mod typed;
#[cfg(test)]
mod types;
#[cfg(test)]
mod worlds;
