ghost use Rattle.std.specs.Prelude.{◌≡◌, Decides};

use messages::body::Body;
use messages::message::Message;

// Whether two bodies say the same: `==` holds exactly where they are equal.
pub fn same_body(body: Body, other: Body) -> bool
    ensures { Decides result (body ≡ other) }
{
    body == other
}

// Whether two messages are the same, in the same way.
pub fn same_message(message: Message, other: Message) -> bool
    ensures { Decides result (message ≡ other) }
{
    message == other
}
