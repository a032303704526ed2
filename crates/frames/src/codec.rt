ghost use Rattle.std.specs.Prelude.{◌≡◌, is_ok, IfOk, Ok, Decides};
ghost use Rattle.messages.specs.declared.message.Message.{Message};
ghost use Rattle.frames.specs.Accepts.{LawfulFrame};
ghost use Rattle.frames.specs.Frames.{FrameRead, framed};

use crate::parts::Parts;
use crate::reading::read_parts;
use crate::writing::lay_out;
use faults::fault::Fault;
use messages::body::Body;
use messages::message::Message;

// The message that a frame holds, or why it holds none. This and `encode` are functions and no conversions: their
// clauses have a name each, and a call says which format it reads or writes.
pub fn decode(bytes: &[u8]) -> Result<Message, Fault>
    ensures exact { FrameRead bytes.now result }
    ensures back { IfOk result (λ message. framed message ≡ bytes.now) }
    ensures forth { (message : Message) → framed message ≡ bytes.now → result ≡ Ok message }
    ensures lawful { Decides (is_ok result) (LawfulFrame bytes.now) }
{
    let parts = read_parts(bytes)?;
    // The parts have been held to the bounds of a message.
    Ok(Message {
        from: parts.from,
        to: parts.to,
        file: parts.file,
        body: Body::from(parts),
    })
}

// The message's frame.
pub fn encode(message: Message) -> [u8; 32]
    ensures exact { result ≡ framed message }
    ensures back { FrameRead result (Ok message) }
{
    lay_out(Parts::from(message))
}
