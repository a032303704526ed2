// Rows: the 16-byte records that files hold.
//
// A row that breaks a limit can't exist: the limits are invariants of the row types, so they are checked once, where
// a row is made, and nowhere again.
#![tactic(auto)]

pub mod bytes;
pub mod codec;
pub mod kind;
pub mod limits;
pub mod pass;
pub mod reading;
pub mod row;
pub mod tuning;
pub mod words;
