// The rules on which the safety of a lease turns: with them every live copy agrees with the primary, and without any of them some run
// breaks agreement.
//
// A function without code carries a theorem to its number: a wrong number is refused where it is made.
ghost use Rattle.std.specs.Prelude.{◌≡◌, ℕ, ◌+◌, ◌*◌, true, cond, List, [], ◌∷◌, length};
ghost use Rattle.protocol.specs.Rules.{open_ask, own_number, no_write_waits, next_version, quiet_mark, children_done, entries_done};
ghost use Rattle.protocol.specs.Rules.{sound, narrow_margin, overwritten_entry, without};
ghost use Rattle.protocol.specs.Promises.{Agreement};
ghost use Rattle.protocol.specs.Witnesses.{Broken, LeastMargin, EachGuardNeeded};

fn smaller_margin_breaks(station_bound: u32, parent_bound: u32, least: u64)
    requires { least ≡ 2 * station_bound + 2 * parent_bound }
    ensures any { LeastMargin (List ℕ) [] station_bound parent_bound least }
    ensures three { Broken narrow_margin (List ℕ) [] }
{}

// What a run-out leaves off, given the drift bounds of the station and of its parent. With it every live copy agrees with the primary;
// with anything less, as three bounds in place of four, some run breaks agreement.
pub fn margin(station_bound: u32, parent_bound: u32) -> u64
    ensures rule { result ≡ sound.margin station_bound parent_bound }
    ensures agreement { Agreement sound (List ℕ) }
    ensures least { LeastMargin (List ℕ) [] station_bound parent_bound result }
    ensures three { Broken narrow_margin (List ℕ) [] }
{
    let least = 2 * u64::from(station_bound) + 2 * u64::from(parent_bound);
    smaller_margin_breaks(station_bound, parent_bound, least);
    least
}

// An entry after a grant, given the entry before it and the end of the new term: the later of the two.
// If the new end took the entry's place, some run would break agreement.
pub fn entry_after(entry: u64, end: u64) -> u64
    ensures rule { result ≡ sound.joined entry end }
    ensures needed { Broken overwritten_entry (List ℕ) [] }
{
    entry.max(end)
}

// Whether a GRANT acts, given whether its ask is open. If one acted after its ask was closed, some run would break agreement.
pub fn grant_acts(ask_is_open: bool) -> bool
    ensures rule { result ≡ cond (sound.keeps open_ask) ask_is_open true }
    ensures needed { Broken (without open_ask) (List ℕ) [] }
{
    ask_is_open
}

// How many guards agreement rests on: without any one of them, and with all others, some run breaks agreement.
pub fn guards() -> usize
    ensures number { result ≡ length (open_ask ∷ (own_number ∷ (no_write_waits ∷ (next_version ∷ (quiet_mark ∷ (children_done ∷ (entries_done ∷ []))))))) }
    ensures needed { EachGuardNeeded (List ℕ) [] }
{
    7
}
