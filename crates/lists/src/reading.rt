ghost use Rattle.std.specs.Prelude.{◌≡◌, IfOk, count_by};
ghost use Rattle.lists.specs.Lists.{LinesAre, Listed, record_count, refused};

use crate::line::Line;
use crate::listing::Listing;
use crate::reader::Reader;
use std::alloc::{AllocError, Global};
use std::marker::PhantomData;

// How many of the records were refused.
fn faults_in<R: Reader>(lines: &[Line<R, R::Record>]) -> usize
    ensures { result ≡ count_by refused lines.now }
{
    lines.iter().filter(|line| line.found.is_err()).count()
}

// A line for each whole record.
fn lines_of<R: Reader>(
    alloc: Global,
    reader: &R,
    bytes: &[u8],
) -> Result<Vec<Line<R, R::Record>>, AllocError>
    ensures { IfOk result (λ lines. LinesAre (R.reads reader.now) R.BYTES bytes.now (record_count R.BYTES bytes.now) lines.items) }
{
    let records = bytes.chunks_exact(R::BYTES);
    let mut lines = Vec::with_capacity(alloc, records.len())?;
    for (index, record) in records.enumerate() {
        lines.push_reserved(Line {
            number: index + 1,
            found: reader.read(record),
            reader: PhantomData,
        });
    }
    Ok(lines)
}

impl<R: Reader> Listing<R> {
    // Reads the records in a run of bytes: any bytes, of any number.
    pub fn read(alloc: Global, reader: &R, bytes: &[u8]) -> Result<Listing<R>, AllocError>
        ensures { IfOk result (Listed (R.reads reader.now) R.BYTES bytes.now) }
    {
        let lines = lines_of(alloc, reader, bytes)?;
        let faults = faults_in(lines.as_slice());
        Ok(Listing {
            lines,
            faults,
            left_over: bytes.len() % R::BYTES,
        })
    }
}
