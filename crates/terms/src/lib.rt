// Terms: how long a lease is granted for.
//
// A policy means a longest term and answers within it. Code above is generic over the trait and proved from that meaning
// alone; each policy also says exactly what it answers.
#![tactic(auto)]

pub mod fixed;
pub mod longest;
pub mod policy;
pub mod sharing;
pub mod zero;
