ghost use Rattle.std.specs.Prelude.{◌≡◌, IfOk, Ok};
ghost use Rattle.rows.specs.declared.row.Row.{Row};
ghost use Rattle.rows.specs.Rows.{Held, FieldsRead, RowRead, written};

use crate::bytes::zero_from;
use crate::kind::RowKind;
use crate::pass::PassRow;
use crate::row::{ROW_BYTES, Row};
use crate::tuning::TuningRow;
use faults::fault::Fault;

// The 16 bytes of a slice; one of another length is unlawful at the first byte that is missing or too many.
fn sixteen(bytes: &[u8]) -> Result<&[u8; 16], Fault>
    ensures { Held bytes.now result }
{
    <&[u8; 16]>::try_from(bytes).map_err(|_| Fault::unlawful(bytes.len().min(ROW_BYTES)))
}

// The row that 16 bytes hold, by the kind in the first.
fn by_kind(bytes: &[u8; 16]) -> Result<Row, Fault>
    ensures { FieldsRead bytes.now result }
{
    match bytes[0] {
        0 => {
            zero_from(bytes, 1)?;
            Ok(Row::Empty)
        }
        PassRow::KIND => Ok(Row::Pass(PassRow::from_bytes(bytes)?)),
        TuningRow::KIND => Ok(Row::Tuning(TuningRow::from_bytes(bytes)?)),
        _ => Err(Fault::unlawful(0)),
    }
}

// Named as the library names the reading and writing of numbers, `from_be_bytes` and `to_be_bytes`; a `TryFrom` would
// hide in one member what the three clauses say.
impl Row {
    // The row that the bytes hold, or the byte of its first wrong field.
    pub fn from_bytes(bytes: &[u8]) -> Result<Row, Fault>
        ensures exact { RowRead bytes.now result }
        ensures back { IfOk result (λ row. written row ≡ bytes.now) }
        ensures forth { (row : Row) → written row ≡ bytes.now → result ≡ Ok row }
    {
        by_kind(sixteen(bytes)?)
    }

    // The row's bytes.
    pub fn to_bytes(self) -> [u8; 16]
        ensures exact { result ≡ written self }
        ensures back { RowRead result (Ok self) }
    {
        match self {
            Row::Empty => [0; 16],
            Row::Pass(p) => {
                let (kind, antenna) = (PassRow::KIND, p.antenna);
                let [s0, s1] = p.satellite.to_be_bytes();
                let [t0, t1, t2, t3] = p.start.to_be_bytes();
                let [l0, l1] = p.seconds.to_be_bytes();
                [
                    kind, s0, s1, antenna, t0, t1, t2, t3, l0, l1, 0, 0, 0, 0, 0, 0,
                ]
            }
            Row::Tuning(t) => {
                let kind = TuningRow::KIND;
                let [s0, s1] = t.satellite.to_be_bytes();
                let [d0, d1, d2, d3] = t.downlink.to_be_bytes();
                let [o0, o1, o2, o3] = t.offset.to_be_bytes();
                [kind, s0, s1, d0, d1, d2, d3, o0, o1, o2, o3, 0, 0, 0, 0, 0]
            }
        }
    }
}
