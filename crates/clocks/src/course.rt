ghost use Rattle.std.specs.Prelude.{◌≡◌, ◌+◌, ◌≤◌, MatchBool, nat_le};

use crate::clock::{FIRST_TICK, LAST_TICK};
use crate::drift::DriftBound;

// What all banks keep: the true time, and how far their clocks may be from it. A bank hands its calls on to it in a line
// each, since the trait asks each bank for all of its members.
#[derive(Clone, Copy)]
pub(crate) struct Course {
    pub(crate) time: u32,
    pub(crate) drift: DriftBound,
    ghost starts: { 1000 ≤ time },
    ghost ends: { time ≤ 1000000000 },
}

impl Course {
    ghost use Rattle.clocks.specs.Course.{Begins, Passes};

    pub(crate) fn new(drift: DriftBound) -> Course
        ensures { Begins drift.ticks result }
    {
        Course {
            time: FIRST_TICK,
            drift,
        }
    }

    // Lets time pass, unless that would lead past the last tick.
    pub(crate) fn pass(&mut self, ticks: u32) -> bool
        ensures test { result ≡ nat_le (self.old.time + ticks) 1000000000 }
        ensures after { MatchBool result (Passes self.old ticks self.new) (self.new ≡ self.old) }
    {
        let fits = ticks <= LAST_TICK - self.time;
        if fits {
            self.time += ticks;
        }
        fits
    }
}
