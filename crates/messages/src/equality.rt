// `==` on bodies and messages is written out, since a derived one has no clause that says what it decides.
ghost use Rattle.std.specs.Prelude.{◌≡◌, Decides};
ghost use Rattle.std.specs.Cmp.{decided, partial_equiv_from_equiv};
ghost use Rattle.messages.specs.Equality.{body_eq, message_eq};
ghost use Rattle.messages.specs.EqualityLaws.{body_eq_decides, message_eq_decides};

use crate::body::Body;
use crate::message::Message;

impl PartialEq for Body {
    ghost eq = { body_eq };

    ghost laws = { partial_equiv_from_equiv (decided body_eq body_eq_decides) };

    #[tactic(auto, using(crate::specs::EqualityLaws::row_eq_decides))]
    fn eq(&self, other: &Body) -> bool
        ensures exact { result ≡ body_eq self.now other.now }
        ensures decides { Decides result (self.now ≡ other.now) }
    {
        match (*self, *other) {
            (Body::Ask { number: n }, Body::Ask { number: m })
            | (Body::Done { number: n }, Body::Done { number: m }) => n == m,
            (
                Body::Grant {
                    number: n,
                    version: v,
                    term: t,
                    row: p,
                },
                Body::Grant {
                    number: m,
                    version: w,
                    term: u,
                    row: q,
                },
            ) => n == m && v == w && t == u && p == q,
            (Body::Recall { version: v }, Body::Recall { version: w })
            | (Body::Approve { version: v }, Body::Approve { version: w }) => v == w,
            (Body::Write { number: n, row: p }, Body::Write { number: m, row: q }) => n == m
                && p == q,
            _ => false,
        }
    }
}

impl Eq for Body {
    ghost laws = { decided body_eq body_eq_decides };
}

impl PartialEq for Message {
    ghost eq = { message_eq };

    ghost laws = { partial_equiv_from_equiv (decided message_eq message_eq_decides) };

    fn eq(&self, other: &Message) -> bool
        ensures exact { result ≡ message_eq self.now other.now }
        ensures decides { Decides result (self.now ≡ other.now) }
    {
        self.from == other.from
            && self.to == other.to
            && self.file == other.file
            && self.body == other.body
    }
}

impl Eq for Message {
    ghost laws = { decided message_eq message_eq_decides };
}
