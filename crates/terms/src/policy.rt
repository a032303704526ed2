ghost use Rattle.std.specs.Prelude.{◌≡◌, ℕ, ◌≤◌, Bool, true, false, MatchOption};

use crate::longest::LongestTerm;

// Which term a granter gives. Two policies may differ in one member; the trait asks each for all of them.
pub trait TermPolicy: Sized {
    // the longest term that it ever answers
    ghost longest: { Self → ℕ };

    // whether there is such a policy with this longest term
    ghost suits: { ℕ → Bool };

    // a new policy with a longest term
    ghost begins: { ℕ → Self → Type 0 };

    // the policy before an answer, the file, how many other children hold a live entry, the term, and the policy after
    ghost answers: { Self → ℕ → ℕ → ℕ → Self → Type 0 };

    // The policy with this longest term, if there is one.
    fn new(most: LongestTerm) -> Option<Self>
        ensures { MatchOption result (suits most.ticks ≡ false) (λ p. (suits most.ticks ≡ true) × begins most.ticks p) };

    fn longest_term(&self) -> u16
        ensures { result ≡ longest self.now };

    // The term for a lease on the file, of which so many other children hold a live entry.
    fn term(&mut self, file: usize, others: usize) -> u16
        ensures answers { answers self.old file others result self.new }
        ensures bound { result ≤ 60000 };

    ghost begun: { (l : ℕ) (s : Self) → begins l s → longest s ≡ l };

    ghost within: { (s t : Self) (file others term : ℕ) → answers s file others term t → term ≤ longest s };

    ghost lasting: { (s t : Self) (file others term : ℕ) → answers s file others term t → longest t ≡ longest s };

    ghost small: { (s : Self) → longest s ≤ 60000 };
}
