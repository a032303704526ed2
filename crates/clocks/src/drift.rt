ghost use Rattle.std.specs.Prelude.{◌≡◌, ◌<◌, MatchOption};

use ticks::UpTo;

// How far a clock may be from true time, in ticks: 0 to 1,000.
pub type DriftBound = UpTo<1_000>;

// The drift bound of so many ticks, if there is one. The limit stands here by its number, where the type's own maker has it
// from the type: so neither can be changed alone.
pub fn drift_bound(ticks: u16) -> Option<DriftBound>
    ensures { MatchOption result (1000 < ticks) (λ bound. bound.ticks ≡ ticks) }
{
    DriftBound::new(ticks)
}
