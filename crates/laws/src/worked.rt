ghost use Rattle.std.specs.Prelude.{◌≡◌, length};
ghost use Rattle.laws.specs.Cases.{Every, table};

// How many worked cases there are; each holds of the rules.
pub fn worked_cases() -> usize
    ensures count { result ≡ length table }
    ensures hold { Every table }
{
    10
}
