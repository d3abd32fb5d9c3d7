// The schedule text: which lines it has, which policy and commands they are, and where it lacks the form.
#![tactic(auto)]

pub mod choice;
pub mod command;
pub mod display;
pub mod fault;
mod fields;
pub mod lines;
mod number;
pub mod parsing;
mod pieces;
pub mod reader;
pub mod report;
pub mod text;
