// Lists the frames from standard input, one line for each.
#![tactic(auto)]

use frame_lists::list::Frames;
use lists::program::answer_to;
use std::io;
use std::io::{BufWriter, Write};

// Which bytes reach the system no clause can tell, so what prints stands here and not in a function for both programs.
fn main(rt: HostRuntime) -> io::Result<()> {
    let listing = answer_to::<Frames, _>(rt.alloc(), &mut rt.stdin())?;
    let mut out = BufWriter::new(rt.alloc(), rt.stdout())?;
    write!(out, "{listing}")?;
    out.flush()
}
