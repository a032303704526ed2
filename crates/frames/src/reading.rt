ghost use Rattle.frames.specs.Frames.{Halved, UsedRow, PartsRead};

use crate::fields::check_fields;
use crate::head::Head;
use crate::parts::Parts;
use faults::fault::Fault;
use messages::kind::Kind;
use messages::marks::Form;
use rows::row::Row;

// A frame's head, and the bytes of its row.
fn halves(bytes: &[u8]) -> Result<(Head, &[u8; 16]), Fault>
    ensures { Halved bytes.now result }
{
    let (head, rest) = bytes
        .split_first_chunk::<16>()
        .ok_or(Fault::unknown_frame())?;
    let row = <&[u8; 16]>::try_from(rest).map_err(|_| Fault::unknown_frame())?;
    Ok((Head::from(head), row))
}

// The row of a frame whose form uses it, and the empty row for any other.
fn used_row(form: Form, row: &[u8; 16]) -> Result<Row, Fault>
    ensures { UsedRow form row.now result }
{
    if form.has_row {
        Row::from_bytes(row)
    } else {
        Ok(Row::Empty)
    }
}

// The parts that a frame holds. Only the mark says whether the row is used, and an unlawful row answers before a
// wrong field.
pub(crate) fn read_parts(bytes: &[u8]) -> Result<Parts, Fault>
    ensures { PartsRead bytes.now result }
{
    let (head, row_bytes) = halves(bytes)?;
    let kind = Kind::try_from(head.mark)?;
    let form = kind.form();
    let row = used_row(form, row_bytes)?;
    check_fields(form, head, row_bytes)?;
    Ok(Parts {
        kind,
        from: head.from,
        to: head.to,
        file: head.file,
        number: head.number,
        version: head.version,
        term: head.term,
        row,
    })
}
