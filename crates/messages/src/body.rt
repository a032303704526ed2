use rows::row::Row;

// What a message says, by its kind.
#[derive(Clone, Copy, Debug)]
pub enum Body {
    // a station asks for a lease
    Ask {
        number: u32,
    },
    // the answer to an ask: a copy of the file and the term for which it is good
    Grant {
        number: u32,
        version: u32,
        term: u16,
        row: Row,
    },
    // the waiting write will make this version: the copy is asked back
    Recall {
        version: u32,
    },
    // the copy is given back
    Approve {
        version: u32,
    },
    // a station writes a row
    Write {
        number: u32,
        row: Row,
    },
    // the write took effect
    Done {
        number: u32,
    },
}
