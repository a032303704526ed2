ghost use Rattle.std.specs.Prelude.{codes, IfOk};
ghost use Rattle.std.proofs.Common.{rules};
ghost use Rattle.frames.specs.Frames.{FrameRead};
ghost use Rattle.lists.specs.Lists.{Listed};

use faults::fault::Fault;
use frames::codec::decode;
use lists::listing::Listing;
use lists::program::Program;
use lists::reader::Reader;
use messages::message::Message;
use std::alloc::{AllocError, Global};

// How the frames of a list are read: each for itself.
pub struct Frames;

impl Reader for Frames {
    type Record = Message;

    const BYTES: usize = 32;

    ghost BYTES = { 32 };

    ghost reads = { λ _. FrameRead };

    ghost noun = { codes "frame" };

    ghost list_noun = { codes "list" };

    ghost some_bytes = { Prim.search rules };

    fn read(&self, bytes: &[u8]) -> Result<Message, Fault> {
        decode(bytes)
    }

    fn noun() -> &'static str {
        "frame"
    }

    fn list_noun() -> &'static str {
        "list"
    }
}

// Reads a list of frames: any bytes, of any number.
pub fn list_frames(alloc: Global, list: &[u8]) -> Result<Listing<Frames>, AllocError>
    ensures { IfOk result (Listed FrameRead 32 list.now) }
{
    Listing::read(alloc, &Frames, list)
}

impl Program for Frames {
    type Answer = Listing<Frames>;

    ghost answers = { Listed FrameRead 32 };

    fn answer(alloc: Global, bytes: &[u8]) -> Result<Listing<Frames>, AllocError> {
        list_frames(alloc, bytes)
    }
}
