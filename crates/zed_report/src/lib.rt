//! What two edit files made of each other, spelled: a line for each thing that is found, in the forms
//! of docs/COMPARE.md.
#![tactic(auto)]

mod blocks;
mod comparing;
mod counts;
mod drawn;
mod known;
mod lines;
mod lints;
mod names;
mod overrides;
mod report;
mod values;
mod words;
mod writers;

pub use comparing::{Comparison, compare};
