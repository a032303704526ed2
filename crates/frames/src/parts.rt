ghost use Rattle.std.specs.Prelude.{◌≡◌};
ghost use Rattle.frames.specs.Parts.{parts, body_of};

use messages::body::Body;
use messages::kind::Kind;
use messages::message::Message;
use rows::row::Row;

// A message laid out flat: a field that its kind doesn't use is 0, and a row empty. Unlike a head it has a kind, where a
// head's mark may be none's, and no gap. The nodes and the file stand in both as
// they do in a message.
#[derive(Clone, Copy)]
pub(crate) struct Parts {
    pub(crate) kind: Kind,
    pub(crate) from: u8,
    pub(crate) to: u8,
    pub(crate) file: u8,
    pub(crate) number: u32,
    pub(crate) version: u32,
    pub(crate) term: u16,
    pub(crate) row: Row,
}

impl From<Message> for Parts {
    ghost from_gives = { λ message p. p ≡ parts message };

    fn from(message: Message) -> Parts {
        let (number, version, term, row) = match message.body {
            Body::Ask { number } | Body::Done { number } => (number, 0, 0, Row::Empty),
            Body::Grant {
                number,
                version,
                term,
                row,
            } => (number, version, term, row),
            Body::Recall { version } | Body::Approve { version } => (0, version, 0, Row::Empty),
            Body::Write { number, row } => (number, 0, 0, row),
        };
        Parts {
            kind: message.kind(),
            from: message.from,
            to: message.to,
            file: message.file,
            number,
            version,
            term,
            row,
        }
    }
}

// What the parts say, by their kind; a part that the kind doesn't use is left out.
impl From<Parts> for Body {
    ghost from_gives = { λ p body. body ≡ body_of p };

    fn from(parts: Parts) -> Body {
        let Parts {
            kind,
            number,
            version,
            term,
            row,
            ..
        } = parts;
        match kind {
            Kind::Ask => Body::Ask { number },
            Kind::Grant => Body::Grant {
                number,
                version,
                term,
                row,
            },
            Kind::Recall => Body::Recall { version },
            Kind::Approve => Body::Approve { version },
            Kind::Write => Body::Write { number, row },
            Kind::Done => Body::Done { number },
        }
    }
}
