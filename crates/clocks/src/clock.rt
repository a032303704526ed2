ghost use Rattle.std.specs.Prelude.{◌≡◌, ℕ, ◌+◌, ◌≤◌, MatchBool, nat_le};

use crate::drift::DriftBound;

// Where true time begins and ends, in ticks.
pub const FIRST_TICK: u32 = 1_000;

pub const LAST_TICK: u32 = 1_000_000_000;

// A bank of clocks, one for each node: the true time, which no node sees, and each node's reading of it.
pub trait ClockBank: Sized {
    // the true time
    ghost time: { Self → ℕ };

    // how far a reading of a node's clock may be from the true time
    ghost bound: { Self → ℕ → ℕ };

    // a new bank with a drift bound
    ghost begins: { ℕ → Self → Type 0 };

    // the bank before a reading, the node, the reading, and the bank after
    ghost reads: { Self → ℕ → ℕ → Self → Type 0 };

    // the bank before a pass, its ticks, and the bank after
    ghost passes: { Self → ℕ → Self → Type 0 };

    // A new bank, at the first tick.
    fn new(drift: DriftBound) -> Self
        ensures { begins drift.ticks result };

    // The true time, for a history; no node may use it.
    fn true_time(&self) -> u32
        ensures { result ≡ time self.now };

    // What the node's clock reads now.
    fn read(&mut self, node: usize) -> u32
        ensures reads { reads self.old node result self.new }
        ensures bound { result ≤ 1000001000 };

    // Lets time pass, unless that would lead past the last tick.
    fn pass(&mut self, ticks: u32) -> bool
        ensures test { result ≡ nat_le (time self.old + ticks) 1000000000 }
        ensures after { MatchBool result (passes self.old ticks self.new) (self.new ≡ self.old) };

    ghost begun: { (e : ℕ) (s : Self) → begins e s → (time s ≡ 1000) × ((node : ℕ) → bound s node ≡ e) };

    ghost near: { (s t : Self) (node r : ℕ) → reads s node r t → (time s ≤ r + bound s node) × (r ≤ time s + bound s node) };

    ghost still: { (s t : Self) (node r : ℕ) → reads s node r t → (time t ≡ time s) × ((p : ℕ) → bound t p ≡ bound s p) };

    ghost passed: { (s t : Self) (d : ℕ) → passes s d t → (time t ≡ time s + d) × ((p : ℕ) → bound t p ≡ bound s p) };

    ghost ends: { (s : Self) → time s ≤ 1000000000 };

    ghost tight: { (s : Self) (node : ℕ) → bound s node ≤ 1000 };
}
