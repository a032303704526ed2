ghost use Rattle.std.specs.Prelude.{◌≡◌, true};
ghost use Rattle.std.proofs.Common.{rules};

use crate::longest::LongestTerm;
use crate::policy::TermPolicy;

// Always the longest term.
#[derive(Clone, Copy)]
pub struct Fixed {
    longest: LongestTerm,
}

impl TermPolicy for Fixed {
    ghost longest = { λ s. s.longest.ticks };

    ghost suits = { λ _. true };

    ghost begins = { λ l s. s.longest.ticks ≡ l };

    ghost answers = { λ s _ _ term t. (term ≡ s.longest.ticks) × (t ≡ s) };

    ghost begun = { Prim.search rules };

    ghost within = { Prim.search rules };

    ghost lasting = { Prim.search rules };

    ghost small = { Prim.search rules };

    fn new(most: LongestTerm) -> Option<Fixed> {
        Some(Fixed { longest: most })
    }

    fn longest_term(&self) -> u16 {
        self.longest.ticks
    }

    fn term(&mut self, _file: usize, _others: usize) -> u16 {
        self.longest_term()
    }
}
