ghost use Rattle.std.specs.Prelude.{◌≡◌, ◌≤◌, true};
ghost use Rattle.messages.specs.Bounds.{lawful_body};

use crate::body::Body;

// A message from one node to another about a file.
#[derive(Clone, Copy, Debug)]
pub struct Message {
    pub from: u8,
    pub to: u8,
    pub file: u8,
    pub body: Body,
    ghost nodes: { (from ≤ 15) × (to ≤ 15) },
    ghost files: { file ≤ 31 },
    ghost lawful: { lawful_body body ≡ true },
}
