ghost use Rattle.std.specs.Prelude.{◌≡◌};
ghost use Rattle.faults.specs.Refusals.{layer_number};

// The part of the service that found a fault.
#[derive(Clone, Copy, Debug, PartialEq, Eq)]
pub enum Layer {
    Scenario = 1,
    // a row or a frame
    Format,
    Network,
}

// The number that a layer is told by.
impl From<Layer> for u8 {
    ghost from_gives = { λ layer number. number ≡ layer_number layer };

    fn from(layer: Layer) -> u8 {
        // the number that stands at the case; nothing but `as` tells it
        layer as u8
    }
}
