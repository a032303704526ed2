ghost use Rattle.std.specs.Prelude.{◌≡◌, ◌+◌, ◌/◌, true};
ghost use Rattle.std.proofs.Common.{rules};

use crate::longest::LongestTerm;
use crate::policy::TermPolicy;

// The longest term, shared among the asker and the others that hold the file.
#[derive(Clone, Copy)]
pub struct Sharing {
    longest: LongestTerm,
}

impl TermPolicy for Sharing {
    ghost longest = { λ s. s.longest.ticks };

    ghost suits = { λ _. true };

    ghost begins = { λ l s. s.longest.ticks ≡ l };

    ghost answers = { λ s _ others term t. (term ≡ s.longest.ticks / (others + 1)) × (t ≡ s) };

    ghost begun = { Prim.search rules };

    ghost within = { Prim.search rules };

    ghost lasting = { Prim.search rules };

    ghost small = { Prim.search rules };

    fn new(most: LongestTerm) -> Option<Sharing> {
        Some(Sharing { longest: most })
    }

    fn longest_term(&self) -> u16 {
        self.longest.ticks
    }

    fn term(&mut self, _file: usize, others: usize) -> u16 {
        // The largest usize has no number after it; it leaves 0 to each, and so would one more. The quotient fits, and
        // `try_from` would make a failure that can't be.
        (usize::from(self.longest.ticks) / others.saturating_add(1)) as u16
    }
}
