// Faults: why something is declined, everywhere in the service, and how that is told.
#![tactic(auto)]

pub mod fault;
pub mod layer;
pub mod refusal;
