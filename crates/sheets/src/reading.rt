ghost use Rattle.std.specs.Prelude.{◌≡◌, IfOk, codes, vec_len};
ghost use Rattle.std.proofs.Common.{rules};
ghost use Rattle.sheets.specs.Sheet.{FindingRead, FirstTunings, noted, row_count};

use crate::finding::Finding;
use faults::fault::Fault;
use lists::reader::Reader;
use rows::row::{ROW_BYTES, Row};
use std::alloc::{AllocError, Global};

// One place for each number that a satellite can have: a place is read by its index, where a map would search.
const SATELLITES: usize = 65_536;

// How the rows of a sheet are read: a pass row together with the first tuning row of its satellite.
#[derive(Drop)]
pub struct Rows {
    // for each satellite, the number of its first tuning row
    first_tuning: Vec<Option<usize>>,
    ghost whole: { vec_len first_tuning ≡ 65536 },
}

impl Rows {
    // The rows of this sheet.
    pub(crate) fn of(alloc: Global, sheet: &[u8]) -> Result<Rows, AllocError>
        ensures { IfOk result (λ rows. FirstTunings sheet.now (row_count sheet.now) rows.first_tuning.items) }
    {
        let first_tuning = vec![in alloc; None; SATELLITES]?;
        let mut rows = Rows { first_tuning };
        for (index, bytes) in sheet.chunks_exact(ROW_BYTES).enumerate() {
            rows.note(index + 1, Row::from_bytes(bytes));
        }
        Ok(rows)
    }

    // Notes a row of the sheet, unless its satellite has an earlier tuning row.
    fn note(&mut self, number: usize, row: Result<Row, Fault>)
        ensures { self.new.first_tuning.items ≡ noted self.old.first_tuning.items number row }
    {
        if let Ok(Row::Tuning(tuning)) = row {
            let satellite = usize::from(tuning.satellite);
            if self.first_tuning[satellite].is_none() {
                self.first_tuning[satellite] = Some(number);
            }
        }
    }
}

impl Reader for Rows {
    type Record = Finding;

    const BYTES: usize = ROW_BYTES;

    ghost BYTES = { 16 };

    ghost reads = { λ rows. FindingRead rows.first_tuning.items };

    ghost noun = { codes "row" };

    ghost list_noun = { codes "sheet" };

    ghost some_bytes = { Prim.search rules };

    fn read(&self, bytes: &[u8]) -> Result<Finding, Fault> {
        Ok(match Row::from_bytes(bytes)? {
            Row::Empty => Finding::Empty,
            Row::Pass(pass) => Finding::Pass(pass, self.first_tuning[usize::from(pass.satellite)]),
            Row::Tuning(tuning) => Finding::Tuning(tuning),
        })
    }

    fn noun() -> &'static str {
        "row"
    }

    fn list_noun() -> &'static str {
        "sheet"
    }
}
