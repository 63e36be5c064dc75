// The keeper: who holds the lines while commands run and a point is given out. Its meaning, and what every method of keeping owes.
#![tactic(auto)]

pub mod clocks;
pub mod faults;
pub mod given;
pub mod pairs;
pub mod rules;
pub mod seats;
pub mod stages;
pub mod traits;
