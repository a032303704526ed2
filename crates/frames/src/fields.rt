ghost use Rattle.std.specs.Prelude.{◌≡◌, ◌==◌};
ghost use Rattle.std.specs.List.{list_all};
ghost use Rattle.frames.specs.Frames.{FieldsPass};

use crate::head::Head;
use faults::fault::Fault;
use messages::limits::{LAST_FILE, LAST_NODE};
use messages::marks::Form;

fn is_zero(row: &[u8; 16]) -> bool
    ensures { result ≡ list_all (λ b. b == 0) row.now }
{
    // one comparison, where a walk over the bytes is a loop
    *row == [0; 16]
}

// The fields in the order of their bytes, each told by its first in the frame. A row that the form uses has been judged
// by the row reader.
pub(crate) fn check_fields(form: Form, head: Head, row: &[u8; 16]) -> Result<(), Fault>
    ensures { FieldsPass form head row.now result }
{
    Fault::frame_field(2).unless(head.from <= LAST_NODE)?;
    Fault::frame_field(3).unless(head.to <= LAST_NODE)?;
    Fault::frame_field(4).unless(head.file <= LAST_FILE)?;
    Fault::frame_field(5).unless(head.gap == 0)?;
    Fault::frame_field(6).unless(form.numbers.holds(head.number))?;
    Fault::frame_field(10).unless(form.versions.holds(head.version))?;
    Fault::frame_field(14).unless(form.terms.holds(u32::from(head.term)))?;
    Fault::frame_field(16).unless(form.has_row || is_zero(row))
}
