ghost use Rattle.std.specs.Prelude.{◌≡◌, ◌≤◌, List, [], IfOk};
ghost use Rattle.std.specs.VecDeque.{deque_len, deque_capacity};
ghost use Rattle.channels.specs.Places.{stored, first, rest, NewestTaken};

use std::alloc::{AllocError, Global};
use std::collections::VecDeque;
use std::marker::Model;

// How many messages a queue or a pool holds.
pub const PLACES: usize = 64;

// A store of 64 places, all reserved when it is made; what comes to a full one is lost.
#[derive(Drop)]
pub(crate) struct Store<T> {
    items: VecDeque<T>,
}

// Clauses see what the store holds, the oldest first.
impl<T> Model for Store<T> {
    ghost Value = { List T };

    ghost view = { λ s. s.items.items };

    ghost invariant = { λ s. (deque_len s.items ≤ 64) × (64 ≤ deque_capacity s.items) };
}

impl<T: Copy> Store<T> {
    pub(crate) fn new(alloc: Global) -> Result<Self, AllocError>
        ensures { IfOk result (λ s. s ≡ []) }
    {
        let items = VecDeque::with_capacity(alloc, PLACES)?;
        Ok(Store { items })
    }

    pub(crate) fn put(&mut self, item: T)
        ensures { self.new ≡ stored self.old item }
    {
        if self.items.len() < PLACES {
            self.items.push_back_reserved(item);
        }
    }

    pub(crate) fn take_oldest(&mut self) -> Option<T>
        ensures taken { result ≡ first self.old }
        ensures left { self.new ≡ rest self.old }
    {
        self.items.pop_front()
    }

    pub(crate) fn take_newest(&mut self) -> Option<T>
        ensures { NewestTaken self.old result self.new }
    {
        self.items.pop_back()
    }
}
