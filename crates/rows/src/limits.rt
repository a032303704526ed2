ghost use Rattle.rows.specs.Rows.{PassMade, TuningMade};

use crate::pass::PassRow;
use crate::tuning::TuningRow;
use faults::fault::Fault;

const ANTENNAS: u8 = 8;

const WEEK_SECONDS: u32 = 604_800;

const LONGEST_PASS: u16 = 3_600;

const LOWEST_DOWNLINK: u32 = 100_000_000;

const HIGHEST_DOWNLINK: u32 = 3_000_000_000;

const WIDEST_OFFSET: i32 = 200_000;

impl PassRow {
    // The pass row with these fields; a field out of its limits is told by its byte in the row.
    pub fn new(satellite: u16, antenna: u8, start: u32, seconds: u16) -> Result<PassRow, Fault>
        ensures { PassMade satellite antenna start seconds result }
    {
        Fault::unlawful(1).unless(satellite != 0)?;
        Fault::unlawful(3).unless((1..=ANTENNAS).contains(&antenna))?;
        Fault::unlawful(4).unless(start < WEEK_SECONDS)?;
        Fault::unlawful(8).unless((1..=LONGEST_PASS).contains(&seconds))?;
        Ok(PassRow {
            satellite,
            antenna,
            start,
            seconds,
        })
    }
}

impl TuningRow {
    // The tuning row with these fields; a field out of its limits is told by its byte in the row.
    pub fn new(satellite: u16, downlink: u32, offset: i32) -> Result<TuningRow, Fault>
        ensures { TuningMade satellite downlink offset result }
    {
        Fault::unlawful(1).unless(satellite != 0)?;
        Fault::unlawful(3).unless((LOWEST_DOWNLINK..=HIGHEST_DOWNLINK).contains(&downlink))?;
        Fault::unlawful(7).unless((-WIDEST_OFFSET..=WIDEST_OFFSET).contains(&offset))?;
        Ok(TuningRow {
            satellite,
            downlink,
            offset,
        })
    }
}
