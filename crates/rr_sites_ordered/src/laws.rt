//! Laws of the list of sites, as contracts of a function that does nothing.
ghost use Rattle.rr_sites_ordered.specs.Order.{KindsAreAmong, LiteralsAreSpelled, SitesAreInOrder};

/// The sites stand in the order of the text: by first token, at one token an overwrite before a guard,
/// an outer guard before an inner one, and guards before a literal; and those of each kind among the
/// sites of a module are its literal, guard and overwrite sites. At the token of a literal stands a
/// number of its width and sign, without x and z digits.
pub fn site_order()
    ensures order { SitesAreInOrder }
    ensures kinds { KindsAreAmong }
    ensures literals { LiteralsAreSpelled }
{}
