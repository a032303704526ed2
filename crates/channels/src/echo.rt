ghost use Rattle.std.specs.Prelude.{◌≡◌, ℕ, ◌⊎◌, Some, None, Option, MatchOption};
ghost use Rattle.std.proofs.Common.{sym, ◌∙◌, subst, inl, inr, arith, rules};
ghost use Rattle.messages.specs.declared.message.Message.{Message};
ghost use Rattle.channels.specs.Held.{by_some};

use crate::channel::Channel;
use messages::message::Message;
use std::alloc::{AllocError, Global};

// A layer that gives each message that it took once more, at the next take.
#[derive(Drop)]
pub struct Echo<C> {
    below: C,
    held: Option<Message>,
}

impl<C: Channel> Channel for Echo<C> {
    ghost waits = { λ e m. C.Channel.waits e.below m ⊎ (e.held ≡ Some m) };

    ghost begins = { λ e. (e.held ≡ None) × C.Channel.begins e.below };

    ghost sends = { λ e m f. (f.held ≡ e.held) × C.Channel.sends e.below m f.below };

    ghost takes = { λ e r f. MatchOption e.held ((f.held ≡ r) × C.Channel.takes e.below r f.below) (λ m. (r ≡ Some m) × (f.held ≡ None) × (f.below ≡ e.below)) };

    ghost begun = { Prim.search rules };

    ghost sent = { λ s t m x sent waits.
        elim waits [
          | inl below ↦ elim (C.Channel.sent _ _ m x sent.1 below) [ inl before ↦ inl (inl before) | inr same ↦ inr same ]
          | inr held ↦ inl (inr (sym sent.0 ∙ held))
        ] };

    ghost taken = { Prim.search rules };

    ghost kept = { λ s t r x took waits.
        by_some _ _ s.held took
        (λ nothing took_below.
        elim waits [
          | inl below ↦ inl (C.Channel.kept _ _ r x took_below.1 below)
          | inr held ↦ inl (C.Channel.taken _ _ x (subst (λ (o : Option Message). C.Channel.takes s.below o t.below) (sym took_below.0 ∙ held) took_below.1))
        ])
        (λ m echoed gave.
        elim waits [
          | inl below ↦ inl (subst (λ (c : _). C.Channel.waits c x) gave.2 below)
          | inr held ↦ let nothing = gave.1 in let z : ◌≡◌ {A = ℕ} 0 1 = cc in absurd (omega arith)
        ]) };

    fn new(alloc: Global) -> Result<Echo<C>, AllocError> {
        let below = C::new(alloc)?;
        Ok(Echo { below, held: None })
    }

    fn send(&mut self, message: Message) {
        self.below.send(message);
    }

    fn take(&mut self) -> Option<Message> {
        // No `or_else`: the check didn't follow a closure that changes `self`.
        match self.held.take() {
            Some(message) => Some(message),
            None => {
                self.held = self.below.take();
                self.held
            }
        }
    }
}
