ghost use Rattle.std.specs.Prelude.{◌≡◌};
ghost use Rattle.faults.specs.Refusals.{number_of};

// Why a call or an input is declined. The cases stand in the order of their numbers: where two fit, the upper answers.
#[derive(Clone, Copy, Debug, PartialEq, Eq)]
pub enum Refusal {
    // the tree, the files or a header's field is out of bounds
    Layout = 1,
    // the lent outbox has fewer than 256 places
    OutboxTooSmall,
    // no such node, or the primary where a station is needed
    UnknownNode,
    // no such file
    UnknownFile,
    // a pass of 0 or above 1,000 ticks, or past the end of time
    BadPass,
    // an ask is open on the file, or a write is outstanding
    Busy,
    // no number is left
    UsedUp,
    // the station has no live copy
    NoLiveCopy,
    // the rows of a pair read don't belong together
    RowsDiffer,
    // the row is not of the kind asked for
    OtherKind,
    // the bytes are no row
    UnlawfulRow,
    // a take while a message lies in the hand
    HandFull,
    // the channel answered no message
    NothingTaken,
    // the slip is not that of the message in hand
    WrongSlip,
    // a frame of another length or of no known mark
    UnknownFrame,
    // a frame's field is out of bounds
    FrameField,
    // no scenario record has this mark
    UnknownMark,
    // the scenario ends within a record, or is too long
    CutShort,
    // the history has no place left
    HistoryFull,
}

// The number that a refusal is told by.
impl From<Refusal> for u8 {
    ghost from_gives = { λ refusal number. number ≡ number_of refusal };

    fn from(refusal: Refusal) -> u8 {
        // the number that stands at the case; nothing but `as` tells it
        refusal as u8
    }
}
