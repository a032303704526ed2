ghost use Rattle.std.specs.Prelude.{◌≡◌};
ghost use Rattle.frames.specs.Frames.{laid_out};

use crate::parts::Parts;

// The frame with these parts.
pub(crate) fn lay_out(parts: Parts) -> [u8; 32]
    ensures { result ≡ laid_out parts }
{
    let [m0, m1] = parts.kind.form().mark.to_be_bytes();
    let [n0, n1, n2, n3] = parts.number.to_be_bytes();
    let [v0, v1, v2, v3] = parts.version.to_be_bytes();
    let [t0, t1] = parts.term.to_be_bytes();
    let head = [
        m0, m1, parts.from, parts.to, parts.file, 0, n0, n1, n2, n3, v0, v1, v2, v3, t0, t1,
    ];
    // In one go: copied into the halves of an array, the bytes are moved one by one, which takes three times as long.
    let halves = [head, parts.row.to_bytes()];
    *halves.as_flattened().as_array().unwrap()
}
