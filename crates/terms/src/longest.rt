ghost use Rattle.std.specs.Prelude.{◌≡◌, ◌<◌, MatchOption};

use ticks::UpTo;

// The longest term that a policy may answer, in ticks: 0 to 60,000.
pub type LongestTerm = UpTo<60_000>;

// The longest term of so many ticks, if there is one. The limit stands here by its number, where the type's own maker has it
// from the type: so neither can be changed alone.
pub fn longest_term(ticks: u16) -> Option<LongestTerm>
    ensures { MatchOption result (60000 < ticks) (λ longest. longest.ticks ≡ ticks) }
{
    LongestTerm::new(ticks)
}
