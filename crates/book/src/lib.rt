// The book: lines, their keeper and their log under one set of calls. What stands here is its definition; see specs/.
#![tactic(auto)]

pub mod faults;
