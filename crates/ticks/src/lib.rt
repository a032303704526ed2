// Lengths of time in ticks, whose types say how long they may be.
#![tactic(auto)]

ghost use Rattle.std.specs.Prelude.{◌≡◌, ◌<◌, ◌≤◌, MatchOption};

// A length of time in ticks: 0 to MOST.
#[derive(Clone, Copy)]
pub struct UpTo<const MOST: u16> {
    pub ticks: u16,
    ghost small: { ticks ≤ MOST },
}

impl<const MOST: u16> UpTo<MOST> {
    // The value needs the test, so `then_some` can't make it.
    pub fn new(ticks: u16) -> Option<Self>
        ensures { MatchOption result (MOST < ticks) (λ bound. bound.ticks ≡ ticks) }
    {
        if ticks <= MOST {
            Some(UpTo { ticks })
        } else {
            None
        }
    }
}
