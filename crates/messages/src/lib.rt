// Messages: what nodes send to one another.
//
// A message that breaks a bound can't exist: the bounds are invariants of the message type, so every message that
// exists can be written as a frame. The table of marks says how the frames of each kind look.
#![tactic(auto)]

pub mod body;
pub mod equality;
pub mod kind;
pub mod limits;
pub mod marks;
pub mod message;
pub mod words;
