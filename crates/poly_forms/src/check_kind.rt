//! What a message is checked for.

ghost use Rattle.std.specs.Prelude.{◌≡◌};
ghost use Rattle.poly_forms.specs.Names.{check_name};

/// The checks of a proof's messages.
#[derive(Clone, Copy, PartialEq, Eq, Debug)]
pub enum CheckKind {
    Products,
    RoundSum,
    LayerFinal,
    LeafFinal,
    ZeroFinal,
    MergeFinal,
    Linear,
    Pack,
    ShiftFinal,
    BitFinal,
    Tensor,
    Constant,
}

impl CheckKind {
    /// The printed name.
    pub fn name(self) -> &'static str
        ensures { result.now ≡ check_name self }
    {
        match self {
            CheckKind::Products => "products",
            CheckKind::RoundSum => "round-sum",
            CheckKind::LayerFinal => "layer-final",
            CheckKind::LeafFinal => "leaf-final",
            CheckKind::ZeroFinal => "zero-final",
            CheckKind::MergeFinal => "merge-final",
            CheckKind::Linear => "linear",
            CheckKind::Pack => "pack",
            CheckKind::ShiftFinal => "shift-final",
            CheckKind::BitFinal => "bit-final",
            CheckKind::Tensor => "tensor",
            CheckKind::Constant => "constant",
        }
    }
}
