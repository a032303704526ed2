ghost use Rattle.std.specs.Prelude.{◌≡◌, true, false, Some, MatchResult};
ghost use Rattle.faults.specs.Refusals.{of_format, unlawful_at, unknown_frame, wrong_at, told};

use crate::layer::Layer;
use crate::refusal::Refusal;
use std::error::Error;
use std::fmt;

// What is wrong with an input: why, at which byte, and who found it. Every layer passes it up whole, by `?`.
#[derive(Clone, Copy, Debug, PartialEq, Eq)]
pub struct Fault {
    pub refusal: Refusal,
    pub place: usize,
    pub layer: Layer,
}

impl Fault {
    // A fault that the reading of a row or a frame finds.
    fn of_format(refusal: Refusal, place: usize) -> Fault
        ensures { result ≡ of_format refusal place }
    {
        Fault {
            refusal,
            place,
            layer: Layer::Format,
        }
    }

    // A row that is unlawful from the byte at `place` on.
    pub fn unlawful(place: usize) -> Fault
        ensures { result ≡ unlawful_at place }
    {
        Fault::of_format(Refusal::UnlawfulRow, place)
    }

    // A frame of another length, or of no known mark.
    pub fn unknown_frame() -> Fault
        ensures { result ≡ unknown_frame }
    {
        Fault::of_format(Refusal::UnknownFrame, 0)
    }

    // A frame whose field that begins at the byte `place` is out of its bounds.
    pub fn frame_field(place: usize) -> Fault
        ensures { result ≡ wrong_at place }
    {
        Fault::of_format(Refusal::FrameField, place)
    }

    // This fault, unless the test holds.
    pub fn unless(self, holds: bool) -> Result<(), Fault>
        ensures { MatchResult result (λ _. holds ≡ true) (λ fault. (holds ≡ false) × (fault ≡ self)) }
    {
        if holds { Ok(()) } else { Err(self) }
    }
}

// A fault in words.
impl fmt::Display for Fault {
    ghost output = { λ fault. Some (told fault) };

    fn fmt<W: fmt::Write>(&self, f: &mut fmt::Formatter<W>) -> fmt::Result {
        let number = u8::from(self.refusal);
        let place = self.place;
        let layer = u8::from(self.layer);
        write!(f, "refused with {number} at byte {place}, layer {layer}")
    }
}

impl Error for Fault {}
