// Laws of the formats: both round trips of rows and of frames, which frames are accepted, and cases worked by hand.
//
// Each stands on the contract of a function that can be run.
#![tactic(auto)]

pub mod accepts;
pub mod equality;
pub mod format;
pub mod trips;
pub mod worked;
