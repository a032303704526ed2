ghost use Rattle.std.specs.Prelude.{ℕ, List, Result};
ghost use Rattle.faults.specs.declared.fault.Fault.{Fault};

use faults::fault::Fault;

// A kind of row: the number in a row's first byte that marks it, and how it is read.
pub trait RowKind: Sized {
    const KIND: u8;

    ghost KIND: { ℕ };

    // what reading 16 bytes as a row of this kind may answer
    ghost reads: { List ℕ → Result Self Fault → Type 0 };

    // The row of this kind that the bytes hold, or the first field that is wrong; the kind is the first field.
    // Named as `from_bytes` of `Row` is.
    fn from_bytes(bytes: &[u8; 16]) -> Result<Self, Fault>
        ensures { reads bytes.now result };
}
