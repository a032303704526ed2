ghost use Rattle.std.specs.Prelude.{◌≡◌};
ghost use Rattle.rows.specs.Rows.{within};
ghost use Rattle.messages.specs.Bounds.{lawful_body};
ghost use Rattle.messages.specs.Messages.{MessageMade};

use crate::body::Body;
use crate::message::Message;

pub const LAST_NODE: u8 = 15;

pub const LAST_FILE: u8 = 31;

// The least and the greatest value of a field.
#[derive(Clone, Copy)]
pub struct Span {
    pub low: u32,
    pub high: u32,
}

// a field that a kind doesn't use
pub const UNUSED: Span = Span { low: 0, high: 0 };

pub const NUMBERS: Span = Span {
    low: 1,
    high: 1_000_000,
};

// at most 15 stations have 1,000,000 writes each, and the first version is 1
pub const VERSIONS: Span = Span {
    low: 1,
    high: 15_000_001,
};

// a recall names the version that the waiting write will make, so never the first
pub const LATER_VERSIONS: Span = Span {
    low: 2,
    high: 15_000_001,
};

pub const TERMS: Span = Span {
    low: 0,
    high: 60_000,
};

impl Span {
    // Whether the value lies within the span.
    pub fn holds(self, value: u32) -> bool
        ensures { result ≡ within self.low self.high value }
    {
        (self.low..=self.high).contains(&value)
    }
}

impl Body {
    // Whether each field is within its bounds.
    fn is_lawful(self) -> bool
        ensures { result ≡ lawful_body self }
    {
        match self {
            Body::Ask { number } | Body::Write { number, .. } | Body::Done { number } => {
                NUMBERS.holds(number)
            }
            Body::Grant {
                number,
                version,
                term,
                ..
            } => NUMBERS.holds(number) && VERSIONS.holds(version) && TERMS.holds(u32::from(term)),
            Body::Recall { version } | Body::Approve { version } => LATER_VERSIONS.holds(version),
        }
    }
}

impl Message {
    // The message with these fields, if all are within their bounds. The value needs the test, so `then_some` can't make it.
    pub fn new(from: u8, to: u8, file: u8, body: Body) -> Option<Message>
        ensures { MessageMade from to file body result }
    {
        if from <= LAST_NODE && to <= LAST_NODE && file <= LAST_FILE && body.is_lawful() {
            Some(Message {
                from,
                to,
                file,
                body,
            })
        } else {
            None
        }
    }
}
