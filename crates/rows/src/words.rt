// Rows in words, as the programs print them. The texts of the two kinds have nothing in common but their shape.
ghost use Rattle.std.specs.Prelude.{Some};
ghost use Rattle.rows.specs.Words.{pass_words, tuning_words, row_words};

use crate::pass::PassRow;
use crate::row::Row;
use crate::tuning::TuningRow;
use std::fmt;

impl fmt::Display for PassRow {
    ghost output = { λ row. Some (pass_words row) };

    fn fmt<W: fmt::Write>(&self, f: &mut fmt::Formatter<W>) -> fmt::Result {
        let satellite = self.satellite;
        let antenna = self.antenna;
        let start = self.start;
        let seconds = self.seconds;
        write!(
            f,
            "pass of satellite {satellite} on antenna {antenna}, start {start} s, length {seconds} s"
        )
    }
}

impl fmt::Display for TuningRow {
    ghost output = { λ row. Some (tuning_words row) };

    fn fmt<W: fmt::Write>(&self, f: &mut fmt::Formatter<W>) -> fmt::Result {
        let satellite = self.satellite;
        let downlink = self.downlink;
        let offset = self.offset;
        write!(
            f,
            "tuning of satellite {satellite}, downlink {downlink} Hz, offset {offset} Hz"
        )
    }
}

impl fmt::Display for Row {
    ghost output = { λ row. Some (row_words row) };

    fn fmt<W: fmt::Write>(&self, f: &mut fmt::Formatter<W>) -> fmt::Result {
        match *self {
            Row::Empty => write!(f, "empty"),
            Row::Pass(row) => write!(f, "{row}"),
            Row::Tuning(row) => write!(f, "{row}"),
        }
    }
}
