// Clocks: the true time, and what each node's clock may read.
//
// A bank means a true time and a bound for each node, and a reading within that bound. Code above is generic over the
// trait and proved from that meaning alone; each bank also says exactly what it reads.
#![tactic(auto)]

pub mod clock;
mod course;
pub mod drift;
pub mod exact;
pub mod swinging;
