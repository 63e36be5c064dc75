// Two images joined into one newer image.
#![tactic(auto)]

pub mod faults;
pub mod join;
mod merged;
