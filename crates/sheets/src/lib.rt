// Sheets: a planner's rows, one after the other in one run of bytes, checked before they go to the primary.
#![tactic(auto)]

pub mod finding;
pub mod reading;
pub mod report;
pub mod sheet;
