ghost use Rattle.std.specs.Prelude.{ℕ, List, IfOk, IfSome, OnOk};
ghost use Rattle.std.specs.Io.KnownBytes.{IsAtEnd};

use std::alloc::{AllocError, Global};
use std::fmt::Display;
use std::io;
use std::io::Read;

// A program that prints its answer to the bytes of its input. A trait, and no closure that `answer_to` would take: it would
// have to require that it may be called.
pub trait Program {
    type Answer: Display + Drop;

    // what may be answered to the bytes
    ghost answers: { List ℕ → Self.Answer → Type 0 };

    // The answer to the bytes.
    fn answer(alloc: Global, bytes: &[u8]) -> Result<Self::Answer, AllocError>
        ensures { IfOk result (answers bytes.now) };
}

// The program's answer to all that the reader gives. Where it is known what that is, the answer is to just those bytes.
pub fn answer_to<P: Program, R: Read>(alloc: Global, input: &mut R) -> io::Result<P::Answer>
    ensures answers { IfOk result (λ answer. IfSome (R.remaining input.old) (λ bytes. P.answers bytes answer)) }
    ensures to_the_end { OnOk result (IsAtEnd (R.remaining input.new)) }
{
    let mut bytes = Vec::new(alloc);
    input.read_to_end(&mut bytes)?;
    Ok(P::answer(alloc, bytes.as_slice())?)
}
