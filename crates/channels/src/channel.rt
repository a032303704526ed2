ghost use Rattle.std.specs.Prelude.{◌≡◌, ◌⊎◌, IfOk, Some, Option};
ghost use Rattle.messages.specs.declared.message.Message.{Message};

use messages::message::Message;
use std::alloc::{AllocError, Global};

// What carries messages between nodes. It may lose, repeat and reorder them; it may not make one up.
pub trait Channel: Sized {
    // the message waits in the channel
    ghost waits: { Self → Message → Type 0 };

    // a new channel
    ghost begins: { Self → Type 0 };

    // the channel before a send, the message, and the channel after
    ghost sends: { Self → Message → Self → Type 0 };

    // the channel before a take, its answer, and the channel after
    ghost takes: { Self → Option Message → Self → Type 0 };

    // A new channel. All its room is reserved here: no later call can fail for want of memory.
    fn new(alloc: Global) -> Result<Self, AllocError>
        ensures { IfOk result begins };

    fn send(&mut self, message: Message)
        ensures { sends self.old message self.new };

    fn take(&mut self) -> Option<Message>
        ensures { takes self.old result self.new };

    // none waits in a new channel
    ghost begun: { (s : Self) (x : Message) → begins s → waits s x → ⊥ };

    // after a send each message that waits waited before or is the one sent
    ghost sent: { (s t : Self) (m x : Message) → sends s m t → waits t x → waits s x ⊎ (x ≡ m) };

    // a take answers none or a message that waited
    ghost taken: { (s t : Self) (m : Message) → takes s (Some m) t → waits s m };

    // a take adds none
    ghost kept: { (s t : Self) (r : Option Message) (x : Message) → takes s r t → waits t x → waits s x };
}
