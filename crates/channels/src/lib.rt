// Channels: what carries messages between nodes, and may lose, repeat and reorder them.
//
// A channel means which messages wait in it. Code above is generic over the trait and proved from that meaning alone, so
// a layer can be added or taken out without a proof above it changing; each channel also says exactly what it does.
#![tactic(auto)]

pub mod channel;
pub mod echo;
pub mod filter;
pub mod loss;
pub mod pool;
pub mod queue;
mod store;
