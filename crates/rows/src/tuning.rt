ghost use Rattle.std.specs.Prelude.{◌≤◌, pos, negsuc, ◌≤ℤ◌};

// A tuning row: the downlink frequency on which a satellite is received, and the receiver's offset from it, in Hz.
#[derive(Clone, Copy, Debug, PartialEq, Eq)]
pub struct TuningRow {
    pub satellite: u16,
    pub downlink: u32,
    pub offset: i32,
    ghost satellites: { (1 ≤ satellite) × (satellite ≤ 65535) },
    ghost downlinks: { (100000000 ≤ downlink) × (downlink ≤ 3000000000) },
    // negsuc 199999 is −200,000
    ghost offsets: { (negsuc 199999 ≤ℤ offset) × (offset ≤ℤ pos 200000) },
}
