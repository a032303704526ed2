ghost use Rattle.sheets.specs.Words.{report_words};

use crate::reading::Rows;
use lists::listing::{Listing, OpenEnded};
use std::fmt;

// A checked sheet.
#[derive(Drop)]
pub struct Report {
    pub rows: Listing<Rows>,
    // pass rows for whose satellite the sheet has no tuning row
    pub untuned: usize,
}

impl fmt::Display for Report {
    ghost output = { report_words };

    fn fmt<W: fmt::Write>(&self, f: &mut fmt::Formatter<W>) -> fmt::Result {
        let rows = OpenEnded(&self.rows);
        let untuned = self.untuned;
        writeln!(f, "{rows}, passes without a tuning row {untuned}")
    }
}
