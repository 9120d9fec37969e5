//! What is known of the claims that wait, before any message.

use std::marker::Model;

enum Never {}

/// Stands for the columns and the numbers of coordinates of the claims that wait. There is none of it
/// at run time: contracts alone speak of them.
pub struct KeptSizes {
    never: Never,
}

impl Model for KeptSizes {
    ghost use Rattle.m3_walk.specs.Linking.{Sizes, none_known};

    ghost Value = { Sizes };

    ghost view = { λ k. none_known };
}
