// CALC: a method of keeping that writes no cell at any turn.
#![tactic(auto)]

pub mod backed;
