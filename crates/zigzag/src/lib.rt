// Zigzag: two copies of each line, of which one is read and one is written.
#![tactic(auto)]

pub mod twins;
