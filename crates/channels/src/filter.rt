ghost use Rattle.std.specs.Prelude.{◌≡◌, ◌≤◌, [], Decides, Option};
ghost use Rattle.std.specs.VecDeque.{deque_len, deque_capacity};
ghost use Rattle.std.proofs.Common.{subst, rules};
ghost use Rattle.std.specs.List.{ContainsAt as Has};
ghost use Rattle.messages.specs.declared.message.Message.{Message};
ghost use Rattle.channels.specs.Filter.{Filtered, remembered};
ghost use Rattle.channels.specs.Filters.{given_came};

use crate::channel::Channel;
use messages::message::Message;
use std::alloc::{AllocError, Global};
use std::collections::VecDeque;

// How many of the messages that it gave a filter remembers.
const REMEMBERED: usize = 4;

// A layer that swallows a message equal to one of the last four that it gave.
#[derive(Drop)]
pub struct RepeatFilter<C> {
    below: C,
    // The last that it gave, the newest last. No `Store`: that loses what comes when it is full, and this what came first.
    given: VecDeque<Message>,
    ghost room: { 4 ≤ deque_capacity given },
    ghost few: { deque_len given ≤ 4 },
}

impl<C> RepeatFilter<C> {
    // Whether the message is one of the last that it gave.
    fn gave(&self, message: Message) -> bool
        ensures { Decides result (Has self.now.given.items message) }
    {
        self.given.contains(&message)
    }

    // Remembers a message that is given.
    fn remember(&mut self, message: Message)
        ensures given { self.new.given.items ≡ remembered self.old.given.items message }
        ensures below { self.new.below ≡ self.old.below }
    {
        if self.given.len() == REMEMBERED {
            self.given.pop_front();
        }
        self.given.push_back_reserved(message);
    }
}

impl<C: Channel> Channel for RepeatFilter<C> {
    ghost waits = { λ f m. C.Channel.waits f.below m };

    ghost begins = { λ f. (f.given.items ≡ []) × C.Channel.begins f.below };

    ghost sends = { λ f m g. (g.given.items ≡ f.given.items) × C.Channel.sends f.below m g.below };

    ghost takes = { λ f r g. (came : Option Message) × C.Channel.takes f.below came g.below × Filtered f.given.items came r g.given.items };

    ghost begun = { Prim.search rules };

    ghost sent = { λ s t m x sent waits. C.Channel.sent _ _ m x sent.1 waits };

    ghost taken = { λ s t m (came, took, filtered). C.Channel.taken _ _ m (subst (λ (o : Option Message). C.Channel.takes s.below o t.below) (given_came _ came m _ filtered) took) };

    ghost kept = { λ s t r x (came, took, filtered) waits. C.Channel.kept _ _ came x took waits };

    fn new(alloc: Global) -> Result<RepeatFilter<C>, AllocError> {
        let given = VecDeque::with_capacity(alloc, REMEMBERED)?;
        let below = C::new(alloc)?;
        Ok(RepeatFilter { below, given })
    }

    fn send(&mut self, message: Message) {
        self.below.send(message);
    }

    fn take(&mut self) -> Option<Message> {
        let message = self.below.take()?;
        // The layer's own answer, so no `?` passes it on.
        if self.gave(message) {
            return None;
        }
        self.remember(message);
        Some(message)
    }
}
