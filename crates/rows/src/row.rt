use crate::pass::PassRow;
use crate::tuning::TuningRow;

// A row as it is written, in bytes.
pub const ROW_BYTES: usize = 16;

// What a file holds: nothing yet, a pass or a tuning.
#[derive(Clone, Copy, Debug, PartialEq, Eq)]
pub enum Row {
    Empty,
    Pass(PassRow),
    Tuning(TuningRow),
}
