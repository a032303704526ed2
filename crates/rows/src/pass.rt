ghost use Rattle.std.specs.Prelude.{◌≤◌};

// A pass row: from `start`, in seconds of the week, an antenna follows a satellite for `seconds`.
#[derive(Clone, Copy, Debug, PartialEq, Eq)]
pub struct PassRow {
    pub satellite: u16,
    pub antenna: u8,
    pub start: u32,
    pub seconds: u16,
    ghost satellites: { (1 ≤ satellite) × (satellite ≤ 65535) },
    ghost antennas: { (1 ≤ antenna) × (antenna ≤ 8) },
    ghost starts: { start ≤ 604799 },
    ghost lengths: { (1 ≤ seconds) × (seconds ≤ 3600) },
}
