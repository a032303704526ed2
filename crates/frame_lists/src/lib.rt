// Frame lists: frames one after the other in one run of bytes, told line by line.
#![tactic(auto)]

pub mod list;
