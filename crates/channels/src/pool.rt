ghost use Rattle.std.specs.Prelude.{◌≡◌, true, []};
ghost use mathlib.Core.List.{Memᴰ};
ghost use Rattle.std.specs.Option.{option_map};
ghost use Rattle.frames.specs.Frames.{framed};
ghost use Rattle.channels.specs.Places.{stored, NewestTaken};
ghost use Rattle.channels.specs.Frames.{all_frames};
ghost use Rattle.channels.specs.Held.{none_held, held_or_sent};
ghost use Rattle.std.proofs.Common.{inl, inr};
ghost use Rattle.channels.specs.Kept.{same_frame, last_waited, waited};

use crate::channel::Channel;
use crate::store::Store;
use frames::codec::{decode, encode};
use messages::message::Message;
use std::alloc::{AllocError, Global};

// The message sent last comes first; a send to a full pool is lost. Messages are kept as their frames.
#[derive(Drop)]
pub struct Pool {
    frames: Store<[u8; 32]>,
    ghost lawful: { all_frames frames ≡ true },
}

impl Channel for Pool {
    ghost waits = { λ p m. Memᴰ (framed m) p.frames };

    ghost begins = { λ p. p.frames ≡ [] };

    ghost sends = { λ p m q. q.frames ≡ stored p.frames (framed m) };

    ghost takes = { λ p r q. NewestTaken p.frames (option_map framed r) q.frames };

    ghost begun = { λ s x none held. none_held _ _ none held };

    ghost sent = { λ s t m x sent held. elim (held_or_sent _ _ _ _ sent held) [ inl before ↦ inl before | inr same ↦ inr (same_frame m x same) ] };

    ghost taken = { λ s t m took. last_waited s.frames t.frames m took };

    ghost kept = { λ s t r x took held. waited s.frames t.frames r x took held };

    fn new(alloc: Global) -> Result<Pool, AllocError> {
        let frames = Store::new(alloc)?;
        Ok(Pool { frames })
    }

    fn send(&mut self, message: Message) {
        self.frames.put(encode(message));
    }

    #[tactic(auto, using(crate::specs::Kept::frames_left, crate::specs::Kept::newest_frame))]
    fn take(&mut self) -> Option<Message> {
        let frame = self.frames.take_newest()?;
        // every frame kept was written by `encode`, so the reader refuses none
        decode(&frame).ok()
    }
}
