ghost use Rattle.std.specs.Prelude.{◌≡◌};
ghost use Rattle.frames.specs.Heads.{head_in};

// A frame's first 16 bytes, field by field. The numbers are big-endian.
#[derive(Clone, Copy)]
pub(crate) struct Head {
    pub(crate) mark: u16,
    pub(crate) from: u8,
    pub(crate) to: u8,
    pub(crate) file: u8,
    // no kind uses this byte
    pub(crate) gap: u8,
    pub(crate) number: u32,
    pub(crate) version: u32,
    pub(crate) term: u16,
}

impl From<&[u8; 16]> for Head {
    ghost from_gives = { λ bytes head. head ≡ head_in bytes.now };

    fn from(bytes: &[u8; 16]) -> Head {
        let [m0, m1, from, to, file, gap, ..] = *bytes;
        let [.., n0, n1, n2, n3, v0, v1, v2, v3, t0, t1] = *bytes;
        Head {
            mark: u16::from_be_bytes([m0, m1]),
            from,
            to,
            file,
            gap,
            number: u32::from_be_bytes([n0, n1, n2, n3]),
            version: u32::from_be_bytes([v0, v1, v2, v3]),
            term: u16::from_be_bytes([t0, t1]),
        }
    }
}
