ghost use Rattle.rows.specs.Rows.{PassRead, TuningRead};

use crate::bytes::zero_from;
use crate::kind::RowKind;
use crate::pass::PassRow;
use crate::tuning::TuningRow;
use faults::fault::Fault;

// The two kinds share what tests a field and what follows the fields; the fields are their own.
impl RowKind for PassRow {
    const KIND: u8 = 1;

    ghost KIND = { 1 };

    ghost reads = { PassRead };

    fn from_bytes(bytes: &[u8; 16]) -> Result<PassRow, Fault> {
        let [kind, s0, s1, antenna, t0, t1, t2, t3, l0, l1, ..] = *bytes;
        Fault::unlawful(0).unless(kind == Self::KIND)?;
        let row = PassRow::new(
            u16::from_be_bytes([s0, s1]),
            antenna,
            u32::from_be_bytes([t0, t1, t2, t3]),
            u16::from_be_bytes([l0, l1]),
        )?;
        zero_from(bytes, 10)?;
        Ok(row)
    }
}

impl RowKind for TuningRow {
    const KIND: u8 = 2;

    ghost KIND = { 2 };

    ghost reads = { TuningRead };

    fn from_bytes(bytes: &[u8; 16]) -> Result<TuningRow, Fault> {
        let [kind, s0, s1, d0, d1, d2, d3, o0, o1, o2, o3, ..] = *bytes;
        Fault::unlawful(0).unless(kind == Self::KIND)?;
        let row = TuningRow::new(
            u16::from_be_bytes([s0, s1]),
            u32::from_be_bytes([d0, d1, d2, d3]),
            i32::from_be_bytes([o0, o1, o2, o3]),
        )?;
        zero_from(bytes, 11)?;
        Ok(row)
    }
}
