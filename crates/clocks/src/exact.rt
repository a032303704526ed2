ghost use Rattle.std.specs.Prelude.{◌≡◌};
ghost use Rattle.std.proofs.Common.{rules};
ghost use Rattle.clocks.specs.Course.{Begins, Passes};

use crate::clock::ClockBank;
use crate::course::Course;
use crate::drift::DriftBound;

// Clocks that all read the true time, whatever the bound allows.
#[derive(Clone, Copy)]
pub struct Exact {
    course: Course,
}

impl ClockBank for Exact {
    ghost time = { λ s. s.course.time };

    ghost bound = { λ s _. s.course.drift.ticks };

    ghost begins = { λ e s. Begins e s.course };

    ghost reads = { λ s _ r t. (r ≡ s.course.time) × (t ≡ s) };

    ghost passes = { λ s d t. Passes s.course d t.course };

    ghost begun = { Prim.search rules };

    ghost near = { Prim.search rules };

    ghost still = { Prim.search rules };

    ghost passed = { Prim.search rules };

    ghost ends = { Prim.search rules };

    ghost tight = { Prim.search rules };

    fn new(drift: DriftBound) -> Exact {
        Exact {
            course: Course::new(drift),
        }
    }

    fn true_time(&self) -> u32 {
        self.course.time
    }

    fn read(&mut self, _node: usize) -> u32 {
        self.true_time()
    }

    fn pass(&mut self, ticks: u32) -> bool {
        self.course.pass(ticks)
    }
}
