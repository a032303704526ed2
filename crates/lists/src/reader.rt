ghost use Rattle.std.specs.Prelude.{◌≡◌, ◌<◌, ℕ, List, Result};
ghost use Rattle.faults.specs.declared.fault.Fault.{Fault};

use faults::fault::Fault;
use std::fmt::Display;

// How the records of a list are read, and what they are called.
pub trait Reader {
    type Record: Display + Copy;

    // how long each record is
    const BYTES: usize;

    // the same, for clauses
    ghost BYTES: { ℕ };

    // what reading a record's bytes may answer
    ghost reads: { Self → List ℕ → Result Self.Record Fault → Type 0 };

    // the words for one record, and for the list
    ghost noun: { List ℕ };

    ghost list_noun: { List ℕ };

    // The record that the bytes hold, or what is wrong with them.
    fn read(&self, bytes: &[u8]) -> Result<Self::Record, Fault>
        ensures { reads self.now bytes.now result };

    // What one record is called. A function, since no clause can compare a constant text with its ghost member.
    fn noun() -> &'static str
        ensures { result.now ≡ noun };

    // What the list is called.
    fn list_noun() -> &'static str
        ensures { result.now ≡ list_noun };

    // A record has some bytes.
    ghost some_bytes: { 0 < BYTES };
}
