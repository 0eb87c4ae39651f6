//! What the names and the sites of an expression stand for.

use rr_choice::SiteList;
use rr_circuit::Wire;
use rr_expr::Scope;

/// The names of an expression, the wires of the signals by their numbers, the sites in it and beside
/// it, and one wire for each bit of a choice among their changes. Where it is still, all stays as it is,
/// whatever the sites, and there is no wire for a choice.
#[derive(Clone, Copy)]
pub struct Inputs<'a> {
    pub scope: &'a Scope<'a>,
    pub signals: &'a [Vec<Wire>],
    pub sites: &'a SiteList<'a>,
    pub choice: &'a [Wire],
    pub still: bool,
}
