ghost use Rattle.std.specs.Fmt.{with_newline};
ghost use Rattle.std.specs.Prelude.{Some, length, vec_items};
ghost use Rattle.lists.specs.Words.{lines_words, left_over_words, open_words};

use crate::line::Line;
use crate::reader::Reader;
use std::fmt;

// A list that was read: a line for each whole record, in order.
#[derive(Drop)]
pub struct Listing<R: Reader> {
    pub lines: Vec<Line<R, R::Record>>,
    // how many records were refused
    pub faults: usize,
    // bytes after the last whole record
    pub left_over: usize,
}

// The lines, each with its end.
#[derive_where(Clone, Copy)]
struct Lines<'a, R: Reader>(&'a [Line<R, R::Record>]);

impl<'a, R: Reader> fmt::Display for Lines<'a, R> {
    ghost output = { λ lines. lines_words R.noun R.Record.output lines.0.now };

    fn fmt<W: fmt::Write>(&self, f: &mut fmt::Formatter<W>) -> fmt::Result {
        for line in self.0 {
            writeln!(f, "{line}")?;
        }
        Ok(())
    }
}

// Where bytes are left over, a line that says so.
#[derive_where(Clone, Copy)]
struct Ending<'a, R: Reader>(&'a Listing<R>);

impl<'a, R: Reader> fmt::Display for Ending<'a, R> {
    ghost output = { λ ending. Some (left_over_words R.noun R.list_noun (length (vec_items ending.0.now.lines)) ending.0.now.left_over) };

    fn fmt<W: fmt::Write>(&self, f: &mut fmt::Formatter<W>) -> fmt::Result {
        let left_over = self.0.left_over;
        if left_over > 0 {
            let list = R::list_noun();
            let noun = R::noun();
            let records = self.0.lines.len();
            writeln!(
                f,
                "the {list} ends in the middle of a {noun}, {left_over} bytes after {noun} {records}"
            )
        } else {
            Ok(())
        }
    }
}

// A listing whose last line is left open, for a report that tells more in it.
#[derive_where(Clone, Copy)]
pub struct OpenEnded<'a, R: Reader>(pub &'a Listing<R>);

// The lines, and the counts that close them.
impl<'a, R: Reader> fmt::Display for OpenEnded<'a, R> {
    ghost output = { λ ended. open_words R.noun R.list_noun R.Record.output ended.0.now };

    fn fmt<W: fmt::Write>(&self, f: &mut fmt::Formatter<W>) -> fmt::Result {
        let lines = Lines(self.0.lines.as_slice());
        let ending = Ending(self.0);
        let noun = R::noun();
        let records = self.0.lines.len();
        let faults = self.0.faults;
        write!(f, "{lines}{ending}{noun}s {records}, faults {faults}")
    }
}

// The same, with the end of its last line.
impl<R: Reader> fmt::Display for Listing<R> {
    ghost output = { λ listing. with_newline (open_words R.noun R.list_noun R.Record.output listing) };

    fn fmt<W: fmt::Write>(&self, f: &mut fmt::Formatter<W>) -> fmt::Result {
        let listing = OpenEnded(self);
        writeln!(f, "{listing}")
    }
}
