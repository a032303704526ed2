ghost use Rattle.std.specs.Prelude.{◌≡◌, ◌==◌};
ghost use Rattle.std.proofs.Common.{rules};

use crate::longest::LongestTerm;
use crate::policy::TermPolicy;

// No lease ever lives: a copy is fetched and has run out.
#[derive(Clone, Copy)]
pub struct Zero;

impl TermPolicy for Zero {
    ghost longest = { λ _. 0 };

    ghost suits = { λ l. (l == 0) };

    ghost begins = { λ l _. l ≡ 0 };

    ghost answers = { λ _ _ _ term _. term ≡ 0 };

    ghost begun = { Prim.search rules };

    ghost within = { Prim.search rules };

    ghost lasting = { Prim.search rules };

    ghost small = { Prim.search rules };

    fn new(most: LongestTerm) -> Option<Zero> {
        (most.ticks == 0).then_some(Zero)
    }

    fn longest_term(&self) -> u16 {
        0
    }

    fn term(&mut self, _file: usize, _others: usize) -> u16 {
        self.longest_term()
    }
}
