// A format of N bytes: how a value is read from bytes and written to them.
ghost use Rattle.std.specs.Prelude.{◌≡◌, ℕ, ◌^◌, ◌<◌, List, Ok, IfOk, Result};
ghost use Rattle.std.proofs.Common.{rules};
ghost use Rattle.faults.specs.declared.fault.Fault.{Fault};
ghost use Rattle.rows.specs.Rows.{RowRead, written};
ghost use Rattle.frames.specs.Frames.{FrameRead, framed};

use faults::fault::Fault;
use frames::codec::{decode, encode};
use messages::message::Message;
use rows::row::Row;

pub trait Format<const N: usize>: Sized {
    // the bytes of a value
    ghost laid_out: { Self → List ℕ };

    // what reading bytes may answer
    ghost reads: { List ℕ → Result Self Fault → Type 0 };

    fn read(bytes: &[u8]) -> Result<Self, Fault>
        ensures exact { reads bytes.now result }
        ensures back { IfOk result (λ value. laid_out value ≡ bytes.now) }
        ensures forth { (value : Self) → laid_out value ≡ bytes.now → result ≡ Ok value };

    fn write(self) -> [u8; N]
        ensures { result ≡ laid_out self };

    // the bytes fit the memory that an array may take
    ghost small: { N < 2 ^ 63 };
}

impl Format<16> for Row {
    ghost laid_out = { written };

    ghost reads = { RowRead };

    ghost small = { Prim.search rules };

    fn read(bytes: &[u8]) -> Result<Row, Fault> {
        Row::from_bytes(bytes)
    }

    fn write(self) -> [u8; 16] {
        self.to_bytes()
    }
}

impl Format<32> for Message {
    ghost laid_out = { framed };

    ghost reads = { FrameRead };

    ghost small = { Prim.search rules };

    fn read(bytes: &[u8]) -> Result<Message, Fault> {
        decode(bytes)
    }

    fn write(self) -> [u8; 32] {
        encode(self)
    }
}
