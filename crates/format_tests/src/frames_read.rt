use faults::fault::Fault;
use faults::layer::Layer;
use faults::refusal::Refusal;
use frames::codec::{decode, encode};
use laws::accepts::accepts;
use laws::equality::{same_body, same_message};
use laws::trips::{read_back, write_back};
use messages::body::Body;
use messages::kind::Kind;
use messages::message::Message;
use rows::pass::PassRow;
use rows::row::Row;
use std::test::Fail;

const ASK: [u8; 32] =
    *b"\x41\x53\x01\x00\x00\x00\x00\x00\x00\x01\x00\x00\x00\x00\x00\x00\x00\x00\x00\x00\x00\x00\x00\x00\x00\x00\x00\x00\x00\x00\x00\x00";

const GRANT: [u8; 32] =
    *b"\x47\x52\x00\x01\x00\x00\x00\x00\x00\x01\x00\x00\x00\x01\x00\x64\x00\x00\x00\x00\x00\x00\x00\x00\x00\x00\x00\x00\x00\x00\x00\x00";

// satellite 7 on antenna 3 from second 36,000 on, for 600 s
const WRITE: [u8; 32] =
    *b"\x57\x52\x02\x00\x00\x00\x00\x00\x00\x01\x00\x00\x00\x00\x00\x00\x01\x00\x07\x03\x00\x00\x8c\xa0\x02\x58\x00\x00\x00\x00\x00\x00";

const RECALL: [u8; 32] =
    *b"\x52\x43\x00\x01\x00\x00\x00\x00\x00\x00\x00\x00\x00\x02\x00\x00\x00\x00\x00\x00\x00\x00\x00\x00\x00\x00\x00\x00\x00\x00\x00\x00";

fn refused(refusal: Refusal, place: usize) -> Result<Message, Fault> {
    Err(Fault {
        refusal,
        place,
        layer: Layer::Format,
    })
}

// What reading the frame answers once one of its bytes is another.
fn damaged(frame: [u8; 32], place: usize, byte: u8) -> Result<Message, Fault> {
    let mut frame = frame;
    if place < 32 {
        frame[place] = byte;
    }
    decode(&frame)
}

#[test]
fn the_worked_frames_read_and_write(rt: HostRuntime) -> Result<(), Fail> {
    let ask = Message {
        from: 1,
        to: 0,
        file: 0,
        body: Body::Ask { number: 1 },
    };
    assert_eq!(rt; encode(ask), ASK);
    assert_eq!(rt; decode(&ASK), Ok(ask));
    let grant = Message {
        from: 0,
        to: 1,
        file: 0,
        body: Body::Grant {
            number: 1,
            version: 1,
            term: 100,
            row: Row::Empty,
        },
    };
    assert_eq!(rt; encode(grant), GRANT);
    let pass = PassRow::new(7, 3, 36_000, 600)?;
    let row = Row::Pass(pass);
    let write = Message {
        from: 2,
        to: 0,
        file: 0,
        body: Body::Write { number: 1, row },
    };
    assert_eq!(rt; encode(write), WRITE);
    assert_eq!(rt; read_back(write), Ok(write));
    assert_eq!(rt; write_back::<32, Message>(&RECALL), Ok(RECALL));
    assert!(rt; accepts(&GRANT));
    assert!(rt; same_message(write, write) && !same_message(write, ask));
    assert!(rt; same_body(grant.body, grant.body) && !same_body(grant.body, write.body));
    Ok(())
}

#[test]
fn a_kind_is_told_by_its_number_and_its_mark(rt: HostRuntime) {
    assert_eq!(rt; u8::from(Kind::Ask), 1);
    assert_eq!(rt; u8::from(Kind::Done), 6);
    assert_eq!(rt; Kind::try_from(0x4752), Ok(Kind::Grant));
    assert_eq!(rt; Kind::try_from(0x4753), Err(Fault::unknown_frame()));
}

#[test]
fn a_length_or_mark_is_judged_first(rt: HostRuntime) {
    assert_eq!(rt; decode(&ASK[0..31]), refused(Refusal::UnknownFrame, 0));
    assert_eq!(rt; decode(&[0; 33]), refused(Refusal::UnknownFrame, 0));
    assert_eq!(rt; damaged(WRITE, 1, 0x53), refused(Refusal::UnknownFrame, 0));
}

#[test]
fn a_used_row_is_judged_before_the_fields(rt: HostRuntime) {
    let mut frame = WRITE;
    frame[2] = 16;
    assert_eq!(rt; decode(&frame), refused(Refusal::FrameField, 2));
    frame[19] = 9;
    assert_eq!(rt; decode(&frame), refused(Refusal::UnlawfulRow, 3));
}

#[test]
fn the_first_wrong_field_is_told(rt: HostRuntime) {
    assert_eq!(rt; damaged(ASK, 3, 16), refused(Refusal::FrameField, 3));
    assert_eq!(rt; damaged(ASK, 4, 32), refused(Refusal::FrameField, 4));
    assert_eq!(rt; damaged(ASK, 5, 1), refused(Refusal::FrameField, 5));
    assert_eq!(rt; damaged(ASK, 9, 0), refused(Refusal::FrameField, 6));
    assert_eq!(rt; damaged(ASK, 13, 1), refused(Refusal::FrameField, 10));
    assert_eq!(rt; damaged(RECALL, 13, 1), refused(Refusal::FrameField, 10));
    assert_eq!(rt; damaged(GRANT, 14, 0xff), refused(Refusal::FrameField, 14));
    assert_eq!(rt; damaged(RECALL, 31, 1), refused(Refusal::FrameField, 16));
}

#[test]
fn bounds_are_the_last_that_are_lawful(rt: HostRuntime) {
    assert!(rt; Message::new(15, 15, 31, Body::Done { number: 1_000_000 }).is_some());
    assert!(rt; Message::new(15, 15, 31, Body::Done { number: 1_000_001 }).is_none());
    assert!(rt; Message::new(16, 15, 31, Body::Done { number: 1 }).is_none());
    assert!(rt; Message::new(0, 1, 32, Body::Done { number: 1 }).is_none());
    assert!(rt;
        Message::new(
            0,
            1,
            0,
            Body::Recall {
                version: 15_000_001,
            },
        )
        .is_some()
    );
    assert!(rt; Message::new(0, 1, 0, Body::Recall { version: 1 }).is_none());
}
