ghost use Rattle.std.specs.Prelude.{◌≡◌, IfOk, count_by};
ghost use Rattle.sheets.specs.Report.{Checked, untuned};

use crate::finding::Finding;
use crate::reading::Rows;
use crate::report::Report;
use lists::line::Line;
use lists::listing::Listing;
use lists::program::Program;
use std::alloc::{AllocError, Global};

// How many of the rows are pass rows without a tuning row.
fn untuned_in(lines: &[Line<Rows, Finding>]) -> usize
    ensures { result ≡ count_by untuned lines.now }
{
    lines
        .iter()
        .filter(|line| matches!(line.found, Ok(Finding::Pass(_, None))))
        .count()
}

// Checks a sheet of rows: any bytes, of any number.
pub fn check_sheet(alloc: Global, sheet: &[u8]) -> Result<Report, AllocError>
    ensures { IfOk result (Checked sheet.now) }
{
    let rows = Listing::read(alloc, &Rows::of(alloc, sheet)?, sheet)?;
    let untuned = untuned_in(rows.lines.as_slice());
    Ok(Report { rows, untuned })
}

impl Program for Report {
    type Answer = Report;

    ghost answers = { Checked };

    fn answer(alloc: Global, bytes: &[u8]) -> Result<Report, AllocError> {
        check_sheet(alloc, bytes)
    }
}
