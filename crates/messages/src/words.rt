// A message in words: its kind, its way with its file, and what it says.
ghost use Rattle.std.specs.Prelude.{Some};
ghost use Rattle.messages.specs.Words.{kind_word, way_words, body_words, message_words};

use crate::body::Body;
use crate::kind::Kind;
use crate::message::Message;
use std::fmt;

impl fmt::Display for Kind {
    ghost output = { λ kind. Some (kind_word kind) };

    fn fmt<W: fmt::Write>(&self, f: &mut fmt::Formatter<W>) -> fmt::Result {
        match *self {
            Kind::Ask => write!(f, "ask"),
            Kind::Grant => write!(f, "grant"),
            Kind::Recall => write!(f, "recall"),
            Kind::Approve => write!(f, "approve"),
            Kind::Write => write!(f, "write"),
            Kind::Done => write!(f, "done"),
        }
    }
}

// The fields of the body.
impl fmt::Display for Body {
    ghost output = { λ body. Some (body_words body) };

    fn fmt<W: fmt::Write>(&self, f: &mut fmt::Formatter<W>) -> fmt::Result {
        match *self {
            Body::Ask { number } | Body::Done { number } => write!(f, "number {number}"),
            Body::Grant {
                number,
                version,
                term,
                row,
            } => write!(
                f,
                "number {number}, version {version}, term {term}, row: {row}"
            ),
            Body::Recall { version } | Body::Approve { version } => {
                write!(f, "version {version}")
            }
            Body::Write { number, row } => write!(f, "number {number}, row: {row}"),
        }
    }
}

// Between which nodes a message goes, and about which file.
#[derive(Clone, Copy)]
pub struct Way(pub Message);

impl fmt::Display for Way {
    ghost output = { λ way. Some (way_words way.0) };

    fn fmt<W: fmt::Write>(&self, f: &mut fmt::Formatter<W>) -> fmt::Result {
        let from = self.0.from;
        let to = self.0.to;
        let file = self.0.file;
        write!(f, "from {from} to {to}, file {file}")
    }
}

impl fmt::Display for Message {
    ghost output = { λ message. Some (message_words message) };

    fn fmt<W: fmt::Write>(&self, f: &mut fmt::Formatter<W>) -> fmt::Result {
        let kind = self.kind();
        let way = Way(*self);
        let body = self.body;
        write!(f, "{kind} {way}, {body}")
    }
}
