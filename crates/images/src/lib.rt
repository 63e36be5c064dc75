// Images: what makes one lawful, and how it is read.
#![tactic(auto)]

pub mod faults;
pub mod line_walk;
pub mod reader;
