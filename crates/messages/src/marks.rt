ghost use Rattle.std.specs.Prelude.{◌≡◌, ◌==◌, Some, None, MatchResult};
ghost use Rattle.std.specs.List.{find};
ghost use Rattle.faults.specs.Refusals.{unknown_frame};
ghost use Rattle.messages.specs.Marks.{form, forms, kind_marked};

use crate::kind::Kind;
use crate::limits::{LATER_VERSIONS, NUMBERS, Span, TERMS, UNUSED, VERSIONS};
use faults::fault::Fault;

// How the frames of one kind look: their mark, and the bounds of the fields that not all kinds use.
#[derive(Clone, Copy)]
pub struct Form {
    pub kind: Kind,
    pub mark: u16,
    pub numbers: Span,
    pub versions: Span,
    pub terms: Span,
    pub has_row: bool,
}

// One form for each kind, in the order of the kinds. A mark is two letters.
pub const FORMS: [Form; 6] = [
    Form {
        kind: Kind::Ask,
        mark: 0x4153,
        numbers: NUMBERS,
        versions: UNUSED,
        terms: UNUSED,
        has_row: false,
    },
    Form {
        kind: Kind::Grant,
        mark: 0x4752,
        numbers: NUMBERS,
        versions: VERSIONS,
        terms: TERMS,
        has_row: true,
    },
    Form {
        kind: Kind::Recall,
        mark: 0x5243,
        numbers: UNUSED,
        versions: LATER_VERSIONS,
        terms: UNUSED,
        has_row: false,
    },
    Form {
        kind: Kind::Approve,
        mark: 0x4150,
        numbers: UNUSED,
        versions: LATER_VERSIONS,
        terms: UNUSED,
        has_row: false,
    },
    Form {
        kind: Kind::Write,
        mark: 0x5752,
        numbers: NUMBERS,
        versions: UNUSED,
        terms: UNUSED,
        has_row: true,
    },
    Form {
        kind: Kind::Done,
        mark: 0x444e,
        numbers: NUMBERS,
        versions: UNUSED,
        terms: UNUSED,
        has_row: false,
    },
];

impl Kind {
    // How the kind's frames look. The kind's number finds the place in the table.
    pub fn form(self) -> Form
        ensures { result ≡ form self }
    {
        // by reference, since the constant by value would be built anew at each call
        let forms = &FORMS;
        forms[self as usize - 1]
    }
}

fn form_marked(mark: u16) -> Option<Form>
    ensures { result ≡ find (λ f. f.mark == mark) forms }
{
    FORMS.iter().copied().find(|form| form.mark == mark)
}

// The kind with a mark.
impl TryFrom<u16> for Kind {
    type Error = Fault;

    ghost try_from_gives = { λ mark found. MatchResult found
        (λ kind. kind_marked mark ≡ Some kind)
        (λ fault. (kind_marked mark ≡ None) × (fault ≡ unknown_frame)) };

    fn try_from(mark: u16) -> Result<Kind, Fault> {
        let form = form_marked(mark).ok_or(Fault::unknown_frame())?;
        Ok(form.kind)
    }
}
