// The layers that refuse.
ghost use Rattle.std.specs.Prelude.{◌≡◌};
ghost use Rattle.automaton.specs.Faults.{layer_number};

// The discriminants are the layers' numbers.
#[derive(Clone, Copy, PartialEq, Eq, Debug)]
pub enum Layer {
    Sheet = 1,
    Rule = 2,
    Combined = 3,
    Register = 4,
    Search = 5,
    Catalogue = 6,
}

impl From<Layer> for u8 {
    ghost from_gives = { λ layer number. number ≡ layer_number layer };

    fn from(layer: Layer) -> u8 {
        layer as u8
    }
}
