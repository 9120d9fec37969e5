//! A ring switch with the columns whose bits it is about.

use bit_claim::Placement;
use ring_switch::SwitchWalk;

/// The ring switch of the table of the bits of these columns.
#[derive(Drop)]
pub struct Switch {
    pub placement: Placement,
    pub walk: SwitchWalk,
}
