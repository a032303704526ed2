ghost use Rattle.std.specs.Prelude.{◌≡◌, ◌+◌, ◌-◌, true, not, if◌then◌else◌};
ghost use Rattle.std.proofs.Common.{rules};
ghost use Rattle.clocks.specs.Course.{Begins, Passes};

use crate::clock::ClockBank;
use crate::course::Course;
use crate::drift::DriftBound;

// Clocks at the edges of their bound: the whole bank reads ahead by it, then behind by it, by turns.
#[derive(Clone, Copy)]
pub struct Swinging {
    course: Course,
    ahead: bool,
}

impl ClockBank for Swinging {
    ghost time = { λ s. s.course.time };

    ghost bound = { λ s _. s.course.drift.ticks };

    ghost begins = { λ e s. Begins e s.course × (s.ahead ≡ true) };

    ghost reads = { λ s _ r t. (r ≡ (if s.ahead then s.course.time + s.course.drift.ticks else s.course.time - s.course.drift.ticks)) × (t.course ≡ s.course) × (t.ahead ≡ not s.ahead) };

    ghost passes = { λ s d t. Passes s.course d t.course × (t.ahead ≡ s.ahead) };

    ghost begun = { Prim.search rules };

    ghost near = { Prim.search rules };

    ghost still = { Prim.search rules };

    ghost passed = { Prim.search rules };

    ghost ends = { Prim.search rules };

    ghost tight = { Prim.search rules };

    fn new(drift: DriftBound) -> Swinging {
        Swinging {
            course: Course::new(drift),
            ahead: true,
        }
    }

    fn true_time(&self) -> u32 {
        self.course.time
    }

    fn read(&mut self, _node: usize) -> u32 {
        let time = self.true_time();
        let drift = u32::from(self.course.drift.ticks);
        let ahead = self.ahead;
        self.ahead = !ahead;
        if ahead { time + drift } else { time - drift }
    }

    fn pass(&mut self, ticks: u32) -> bool {
        self.course.pass(ticks)
    }
}
