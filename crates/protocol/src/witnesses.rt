// That the promises are not empty: runs in which something happens.
//
// A function without code carries a theorem to its number: a wrong number is refused where it is made.
ghost use Rattle.std.specs.Prelude.{◌≡◌, ℕ, List, [], ◌∷◌};
ghost use Rattle.protocol.specs.Rules.{sound};
ghost use Rattle.protocol.specs.Witnesses.{Alive, Served};

fn live_copy(until: u32)
    requires { until ≡ 1092 }
    ensures { Alive sound (List ℕ) [] until }
{}

fn served_write(version: u32)
    requires { version ≡ 2 }
    ensures { Served sound (List ℕ) [] (7 ∷ []) version }
{}

// The run-out of a copy that comes to be held, and to be live: asked at 1,000 with a term of 100 and clocks that are 2 ticks off.
pub fn a_copy_lives_until() -> u32
    ensures { Alive sound (List ℕ) [] result }
{
    let until = 1_000 + 100 - 2 * 2 - 2 * 2;
    live_copy(until);
    until
}

// The version that a new file has after a write that was asked, took effect and was reported done.
pub fn a_write_makes_version() -> u32
    ensures { Served sound (List ℕ) [] (7 ∷ []) result }
{
    let version = 1 + 1;
    served_write(version);
    version
}
