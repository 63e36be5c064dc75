// How a script is read: bytes cut into lines and words, and words as numbers and as bytes.
#![tactic(auto)]

pub mod decimal;
pub mod hex;
pub mod pieces;
