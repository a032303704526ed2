ghost use Rattle.std.specs.Prelude.{◌≡◌, Ok, Err, MatchResult};

use crate::format::Format;
use faults::fault::Fault;

// What is written reads back the same.
pub fn read_back<const N: usize, F: Format<N>>(value: F) -> Result<F, Fault>
    ensures { result ≡ Ok value }
{
    F::read(&value.write())
}

// Bytes that are accepted are written again the same; others are refused as the reader refuses them.
pub fn write_back<const N: usize, F: Format<N>>(bytes: &[u8]) -> Result<[u8; N], Fault>
    ensures { MatchResult result (λ again. again ≡ bytes.now) (λ fault. F.reads bytes.now (Err fault)) }
{
    let value = F::read(bytes)?;
    Ok(value.write())
}
