// What else the protocol promises of every run, each promise with the number that it turns on.
//
// A function without code carries a theorem to its number: a wrong number is refused where it is made, and not in a proof.
ghost use Rattle.std.specs.Prelude.{◌≡◌, ℕ, ◌+◌, ◌-◌, ◌*◌, ◌<◌, ◌≤◌, List, []};
ghost use Rattle.protocol.specs.Rules.{sound};
ghost use Rattle.protocol.specs.Promises.{Once, VersionAfter, BoundedWait, WaitsBelow, VersionsFit, VersionsWithin};
ghost use Rattle.protocol.specs.Witnesses.{Waited};

fn once(effects: u32, version: u64)
    requires { version ≡ effects + 1 }
    ensures whole { Once sound (List ℕ) }
    ensures after { VersionAfter sound (List ℕ) effects version }
{}

fn bounded_wait(longest_term: u32, primary_bound: u32, ticks: u64)
    requires { ticks ≡ longest_term + 2 * primary_bound }
    ensures whole { BoundedWait sound (List ℕ) }
    ensures below { WaitsBelow sound (List ℕ) longest_term primary_bound ticks }
    ensures reached { 0 < longest_term → Waited sound (List ℕ) [] longest_term primary_bound (ticks - 1) }
{}

fn versions_fit(most: u32)
    requires { 15000001 ≤ most }
    ensures whole { VersionsFit sound (List ℕ) }
    ensures within { VersionsWithin sound (List ℕ) most }
{}

// The version of a file on which so many writes took effect: each did so once, and every story that a run tells is true.
pub fn version_after(effects: u32) -> u64
    ensures promise { Once sound (List ℕ) }
    ensures after { VersionAfter sound (List ℕ) effects result }
{
    let version = u64::from(effects) + 1;
    once(effects, version);
    version
}

// The true ticks that no waiting write reaches; where leases are given at all, some write waits for all but one of them.
pub fn longest_wait(longest_term: u32, primary_bound: u32) -> u64
    ensures promise { BoundedWait sound (List ℕ) }
    ensures below { WaitsBelow sound (List ℕ) longest_term primary_bound result }
    ensures reached { 0 < longest_term → Waited sound (List ℕ) [] longest_term primary_bound (result - 1) }
{
    let ticks = u64::from(longest_term) + 2 * u64::from(primary_bound);
    bounded_wait(longest_term, primary_bound, ticks);
    ticks
}

// The greatest version that a network of 16 nodes can reach, whose asks and writes have numbers to 1,000,000.
pub fn greatest_version() -> u32
    ensures promise { VersionsFit sound (List ℕ) }
    ensures within { VersionsWithin sound (List ℕ) result }
    ensures number { result ≡ 15000001 }
{
    let most = 15_000_001;
    versions_fit(most);
    most
}
