use faults::fault::Fault;
use faults::refusal::Refusal;
use laws::trips::{read_back, write_back};
use rows::kind::RowKind;
use rows::pass::PassRow;
use rows::row::Row;
use rows::tuning::TuningRow;
use std::test::Fail;

// satellite 7 on antenna 3 from second 36,000 on, for 600 s
const PASS: [u8; 16] = *b"\x01\x00\x07\x03\x00\x00\x8c\xa0\x02\x58\x00\x00\x00\x00\x00\x00";

// satellite 7 at 437,000,000 Hz, −9,500 Hz
const TUNING: [u8; 16] = *b"\x02\x00\x07\x1a\x0c\x17\x40\xff\xff\xda\xe4\x00\x00\x00\x00\x00";

#[test]
fn the_worked_rows_read_and_write(rt: HostRuntime) -> Result<(), Fail> {
    let pass = PassRow::new(7, 3, 36_000, 600)?;
    let tuning = TuningRow::new(7, 437_000_000, -9_500)?;
    assert_eq!(rt; Row::from_bytes(&PASS), Ok(Row::Pass(pass)));
    assert_eq!(rt; Row::Pass(pass).to_bytes(), PASS);
    assert_eq!(rt; Row::from_bytes(&TUNING), Ok(Row::Tuning(tuning)));
    assert_eq!(rt; Row::Tuning(tuning).to_bytes(), TUNING);
    assert_eq!(rt; read_back(Row::Empty), Ok(Row::Empty));
    assert_eq!(rt; write_back::<16, Row>(&TUNING), Ok(TUNING));
    Ok(())
}

#[test]
fn a_limit_is_the_last_that_is_lawful(rt: HostRuntime) {
    assert!(rt; PassRow::new(1, 8, 604_799, 3_600).is_ok());
    assert_eq!(rt; PassRow::new(0, 9, 604_800, 0), Err(Fault::unlawful(1)));
    assert_eq!(rt; PassRow::new(1, 9, 604_800, 0), Err(Fault::unlawful(3)));
    assert_eq!(rt; PassRow::new(1, 8, 604_800, 0), Err(Fault::unlawful(4)));
    assert_eq!(rt; PassRow::new(1, 8, 604_799, 0), Err(Fault::unlawful(8)));
    assert!(rt; TuningRow::new(65_535, 100_000_000, -200_000).is_ok());
    assert_eq!(rt;
        TuningRow::new(1, 99_999_999, -200_001),
        Err(Fault::unlawful(3))
    );
    assert_eq!(rt;
        TuningRow::new(1, 3_000_000_000, -200_001),
        Err(Fault::unlawful(7))
    );
}

#[test]
fn the_first_wrong_byte_is_told(rt: HostRuntime) {
    let mut bytes = PASS;
    bytes[15] = 1;
    assert_eq!(rt; Row::from_bytes(&bytes), Err(Fault::unlawful(15)));
    bytes[10] = 1;
    assert_eq!(rt; Row::from_bytes(&bytes), Err(Fault::unlawful(10)));
    bytes[0] = 3;
    assert_eq!(rt; Row::from_bytes(&bytes), Err(Fault::unlawful(0)));
    bytes[0] = 0;
    assert_eq!(rt; Row::from_bytes(&bytes), Err(Fault::unlawful(2)));
}

#[test]
fn other_lengths_and_kinds_are_refused(rt: HostRuntime) {
    assert_eq!(rt; Row::from_bytes(&PASS[0..15]), Err(Fault::unlawful(15)));
    assert_eq!(rt; Row::from_bytes(&[0; 17]), Err(Fault::unlawful(16)));
    assert_eq!(rt; Row::from_bytes(&[]), Err(Fault::unlawful(0)));
    assert_eq!(rt; PassRow::from_bytes(&TUNING), Err(Fault::unlawful(0)));
    assert_eq!(rt; TuningRow::from_bytes(&PASS), Err(Fault::unlawful(0)));
    assert_eq!(rt; PassRow::KIND, 1);
    assert_eq!(rt; TuningRow::KIND, 2);
}

#[test]
fn a_fault_is_told_in_words(rt: HostRuntime) -> Result<(), Fail> {
    assert_eq!(rt;
        Fault::unlawful(7).to_string(rt.alloc())?.as_str(),
        "refused with 11 at byte 7, layer 2"
    );
    assert_eq!(rt; u8::from(Refusal::Layout), 1);
    assert_eq!(rt; u8::from(Refusal::HistoryFull), 19);
    Ok(())
}
