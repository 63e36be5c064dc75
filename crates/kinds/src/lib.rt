// The kinds of line that there are.
#![tactic(auto)]

pub mod accounts;
pub mod stocks;
