//! What a draw is for.

ghost use Rattle.std.specs.Prelude.{◌≡◌};
ghost use Rattle.poly_forms.specs.Names.{draw_name};

/// The counted draws of a proof, by what each joins or sets.
#[derive(Clone, Copy, PartialEq, Eq, Debug)]
pub enum DrawKind {
    Alpha,
    Gamma,
    ConstraintBatch,
    ZeroCoordinate,
    ZeroRound,
    LayerRound,
    LayerJoin,
    LeafRound,
    Merge,
    MergeRound,
    PackCoordinate,
    ShiftRound,
    BitBatch,
    BitRound,
    TensorCoordinate,
    SwitchRound,
}

impl DrawKind {
    /// The printed name.
    pub fn name(self) -> &'static str
        ensures { result.now ≡ draw_name self }
    {
        match self {
            DrawKind::Alpha => "alpha",
            DrawKind::Gamma => "gamma",
            DrawKind::ConstraintBatch => "constraint-batch",
            DrawKind::ZeroCoordinate => "zero-coordinate",
            DrawKind::ZeroRound => "zero-round",
            DrawKind::LayerRound => "layer-round",
            DrawKind::LayerJoin => "layer-join",
            DrawKind::LeafRound => "leaf-round",
            DrawKind::Merge => "merge",
            DrawKind::MergeRound => "merge-round",
            DrawKind::PackCoordinate => "pack-coordinate",
            DrawKind::ShiftRound => "shift-round",
            DrawKind::BitBatch => "bit-batch",
            DrawKind::BitRound => "bit-round",
            DrawKind::TensorCoordinate => "tensor-coordinate",
            DrawKind::SwitchRound => "switch-round",
        }
    }
}
