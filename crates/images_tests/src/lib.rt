// Tests of the reader and the join of images, apart from them so that their proofs are not checked twice.
#![tactic(auto)]

#[cfg(test)]
mod joining;
#[cfg(test)]
mod reads;
pub mod wide;
