ghost use Rattle.std.specs.Prelude.{Some};
ghost use Rattle.sheets.specs.Words.{finding_words};

use rows::pass::PassRow;
use rows::tuning::TuningRow;
use std::fmt;

// What the check finds in a lawful row's place.
#[derive(Clone, Copy)]
pub enum Finding {
    Empty,
    // a pass row, with the number of the first tuning row of its satellite in the sheet
    Pass(PassRow, Option<usize>),
    Tuning(TuningRow),
}

impl fmt::Display for Finding {
    ghost output = { λ finding. Some (finding_words finding) };

    fn fmt<W: fmt::Write>(&self, f: &mut fmt::Formatter<W>) -> fmt::Result {
        match *self {
            Finding::Empty => write!(f, "empty"),
            Finding::Pass(row, Some(tuning)) => write!(f, "{row}, tuning in row {tuning}"),
            Finding::Pass(row, None) => write!(f, "{row}, no tuning row"),
            Finding::Tuning(row) => write!(f, "{row}"),
        }
    }
}
