// Frames: messages in 32 bytes.
#![tactic(auto)]

pub mod codec;
mod fields;
mod head;
mod parts;
mod reading;
mod writing;
