// The class sheet: the count of steps of each choice, and the text that is printed.
#![tactic(auto)]

pub mod pieces;
mod steps;
mod writing;
