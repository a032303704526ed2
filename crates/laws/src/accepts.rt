ghost use Rattle.std.specs.Prelude.{Decides};
ghost use Rattle.frames.specs.Accepts.{LawfulFrame};

use frames::codec::decode;

// Whether the bytes are a frame: exactly where the fields that their mark uses are in bounds, and all others zero.
pub fn accepts(bytes: &[u8]) -> bool
    ensures { Decides result (LawfulFrame bytes.now) }
{
    decode(bytes).is_ok()
}
