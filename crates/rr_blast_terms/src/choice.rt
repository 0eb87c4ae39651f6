//! Choices on wires.

use rr_choice::SiteList;
use rr_circuit::Wire;

/// The sites of a design, and the wires that carry the bits of a choice among their changes: one for
/// each bit.
#[derive(Clone, Copy)]
pub struct ChoiceWires<'a> {
    pub sites: &'a SiteList<'a>,
    pub wires: &'a [Wire],
}
