// Checks a sheet of rows from standard input, and prints what it finds.
#![tactic(auto)]

use lists::program::answer_to;
use sheets::report::Report;
use std::io;
use std::io::{BufWriter, Write};

// Which bytes reach the system no clause can tell, so what prints stands here and not in a function for both programs.
fn main(rt: HostRuntime) -> io::Result<()> {
    let report = answer_to::<Report, _>(rt.alloc(), &mut rt.stdin())?;
    let mut out = BufWriter::new(rt.alloc(), rt.stdout())?;
    write!(out, "{report}")?;
    out.flush()
}
