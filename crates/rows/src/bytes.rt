ghost use Rattle.std.specs.Prelude.{◌≡◌, ◌<◌, ◌≤◌, ⊤, length, drop, IfSome};
ghost use Rattle.rows.specs.Bytes.{first_nonzero};
ghost use Rattle.rows.specs.Rows.{Answers};

use faults::fault::Fault;

fn first_nonzero(bytes: &[u8]) -> Option<usize>
    ensures first { result ≡ first_nonzero 0 bytes.now }
    ensures within { IfSome result (λ place. place < length bytes.now) }
{
    bytes.iter().position(|&byte| byte != 0)
}

// The bytes from `from` on must be zero; the first that isn't is told.
pub(crate) fn zero_from(bytes: &[u8; 16], from: usize) -> Result<(), Fault>
    requires { from ≤ 16 }
    ensures { Answers (first_nonzero from (drop from bytes.now)) (λ _. ⊤) result }
{
    let (_, rest) = bytes.split_at(from);
    // What is found is the fault, so `ok_or` and `?` would turn it around.
    match first_nonzero(rest) {
        None => Ok(()),
        Some(place) => Err(Fault::unlawful(from + place)),
    }
}
