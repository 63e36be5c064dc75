// The log: what a book can be rebuilt from, as an interface and in two makes.
#![tactic(auto)]

pub mod byte_log;
pub mod entries;
pub mod entry_log;
pub mod entry_records;
pub mod faults;
pub mod scans;
pub mod traits;
