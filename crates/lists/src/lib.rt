// Lists: records of one size, one after the other in one run of bytes, told line by line.
#![tactic(auto)]

pub mod line;
pub mod listing;
pub mod program;
pub mod reader;
pub mod reading;
