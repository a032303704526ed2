ghost use Rattle.std.specs.Prelude.{◌≡◌};
ghost use Rattle.messages.specs.Kinds.{number_of_kind, kind_of};

use crate::body::Body;
use crate::message::Message;

// The kinds of message, in the order of their numbers.
#[derive(Clone, Copy, Debug, PartialEq, Eq)]
pub enum Kind {
    Ask = 1,
    Grant,
    Recall,
    Approve,
    Write,
    Done,
}

// The number that a kind is told by.
impl From<Kind> for u8 {
    ghost from_gives = { λ kind number. number ≡ number_of_kind kind };

    fn from(kind: Kind) -> u8 {
        // the number that stands at the case; nothing but `as` tells it
        kind as u8
    }
}

impl Message {
    // The message's kind: a part of it, and no conversion.
    pub fn kind(self) -> Kind
        ensures { result ≡ kind_of self.body }
    {
        match self.body {
            Body::Ask { .. } => Kind::Ask,
            Body::Grant { .. } => Kind::Grant,
            Body::Recall { .. } => Kind::Recall,
            Body::Approve { .. } => Kind::Approve,
            Body::Write { .. } => Kind::Write,
            Body::Done { .. } => Kind::Done,
        }
    }
}
