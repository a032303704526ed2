ghost use Rattle.std.specs.Prelude.{◌≡◌, []};
ghost use mathlib.Core.List.{Memᴰ};
ghost use Rattle.channels.specs.Places.{stored, first, rest};
ghost use Rattle.channels.specs.Held.{none_held, held_or_sent, first_held, rest_held};

use crate::channel::Channel;
pub use crate::store::PLACES;
use crate::store::Store;
use messages::message::Message;
use std::alloc::{AllocError, Global};

// The message that has waited longest comes first; a send to a full queue is lost.
#[derive(Drop)]
pub struct Queue {
    messages: Store<Message>,
}

impl Channel for Queue {
    ghost waits = { λ q m. Memᴰ m q.messages };

    ghost begins = { λ q. q.messages ≡ [] };

    ghost sends = { λ q m r. r.messages ≡ stored q.messages m };

    ghost takes = { λ q o r. (o ≡ first q.messages) × (r.messages ≡ rest q.messages) };

    ghost begun = { λ s x none held. none_held _ x none held };

    ghost sent = { λ s t m x sent held. held_or_sent _ _ m x sent held };

    ghost taken = { λ s t m took. first_held _ m took.0 };

    ghost kept = { λ s t r x took held. rest_held _ _ x took.1 held };

    fn new(alloc: Global) -> Result<Queue, AllocError> {
        let messages = Store::new(alloc)?;
        Ok(Queue { messages })
    }

    fn send(&mut self, message: Message) {
        self.messages.put(message);
    }

    fn take(&mut self) -> Option<Message> {
        self.messages.take_oldest()
    }
}
