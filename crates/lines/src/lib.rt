// What a line is: a value with a rule that it keeps, changes that are accepted or refused, and a payload with one reading.
#![tactic(auto)]

pub mod changes;
pub mod faults;
pub mod numbered;
pub mod numbers;
pub mod traits;
