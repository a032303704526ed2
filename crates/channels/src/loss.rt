ghost use Rattle.std.specs.Prelude.{◌≡◌, ◌+◌, ◌≤◌, nat_eq, MatchBool};
ghost use Rattle.std.proofs.Common.{subst, inl, rules};
ghost use Rattle.channels.specs.Held.{by_test};

use crate::channel::Channel;
use messages::message::Message;
use std::alloc::{AllocError, Global};

// A layer that drops every third send given to it.
#[derive(Drop)]
pub struct Loss<C> {
    below: C,
    // sends since the last that was dropped
    passed_on: u8,
    ghost small: { passed_on ≤ 2 },
}

impl<C: Channel> Channel for Loss<C> {
    ghost waits = { λ l m. C.Channel.waits l.below m };

    ghost begins = { λ l. (l.passed_on ≡ 0) × C.Channel.begins l.below };

    ghost sends = { λ l m k. MatchBool (nat_eq l.passed_on 2) ((k.passed_on ≡ 0) × (k.below ≡ l.below)) ((k.passed_on ≡ l.passed_on + 1) × C.Channel.sends l.below m k.below) };

    ghost takes = { λ l r k. (k.passed_on ≡ l.passed_on) × C.Channel.takes l.below r k.below };

    ghost begun = { Prim.search rules };

    ghost sent = { λ s t m x sent held.
        by_test (nat_eq s.passed_on 2) sent
        (λ dropped. inl (subst (λ (below : _). C.Channel.waits below x) dropped.1 held))
        (λ passed. C.Channel.sent _ _ m x passed.1 held) };

    ghost taken = { Prim.search rules };

    ghost kept = { λ s t r x took held. C.Channel.kept _ _ r x took.1 held };

    fn new(alloc: Global) -> Result<Loss<C>, AllocError> {
        let below = C::new(alloc)?;
        Ok(Loss {
            below,
            passed_on: 0,
        })
    }

    fn send(&mut self, message: Message) {
        if self.passed_on == 2 {
            self.passed_on = 0;
        } else {
            self.passed_on += 1;
            self.below.send(message);
        }
    }

    fn take(&mut self) -> Option<Message> {
        self.below.take()
    }
}
