//! A law of last assignments.
ghost use Rattle.rr_blast_body.specs.Overwrites.{BodiesByTheirSites};

/// The body of an `always` with the last assignments of sites does what the body does, and then what
/// these do, one after the other.
#[tactic(auto, using(crate::proofs::OverwriteLaws::ran_bodies))]
pub fn bodies_by_sites()
    ensures { BodiesByTheirSites }
{}
