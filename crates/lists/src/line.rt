ghost use Rattle.lists.specs.Words.{line_words};

use crate::reader::Reader;
use faults::fault::Fault;
use std::fmt;
use std::fmt::Display;
use std::marker::PhantomData;

// One record of a list; the first has the number 1. The record's type stands beside its reader's, since a type that holds
// an associated type can't be `Copy`.
#[derive_where(Clone, Copy; T)]
pub struct Line<R, T> {
    pub number: usize,
    pub found: Result<T, Fault>,
    // whose record it is, since the reader has the word for one
    pub reader: PhantomData<R>,
}

impl<R: Reader<Record = T>, T: Display> fmt::Display for Line<R, T> {
    ghost output = { line_words R.noun T.output };

    fn fmt<W: fmt::Write>(&self, f: &mut fmt::Formatter<W>) -> fmt::Result {
        let noun = R::noun();
        let number = self.number;
        match &self.found {
            Ok(found) => write!(f, "{noun} {number}: {found}"),
            Err(fault) => write!(f, "{noun} {number}: {fault}"),
        }
    }
}
