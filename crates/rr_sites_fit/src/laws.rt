//! Laws of the sites of a lawful design, as contracts of functions that do nothing.
ghost use Rattle.rr_sites_fit.specs.Laws.{OneList, PlacesRise, ScopesAreFit, SitesAreListed, SitesAreRight};

/// The sites that are listed for a source and its flat design, with the names of its clock, are right
/// there: each stands in an item of its module; its names are declared as scalars in each instance of
/// the module, do not lead to the clock, are written by `=` in no clocked block, and outside clocked
/// blocks are registers; what an overwrite assigns is a whole target there, of its width in each
/// instance, and names no loop; and at the token of a literal stands a number of its width and sign.
pub fn sites_are_right()
    ensures right { SitesAreRight }
    ensures listed { SitesAreListed }
{}

/// A flat design meets what the listing asks: each variable of a module has 1 to 128 bits in the first
/// instance, and the modules that have instances stand in their order.
pub fn listing_is_met()
    ensures scopes { ScopesAreFit }
    ensures places { PlacesRise }
{}

/// A design has one list of sites.
pub fn one_site_list()
    ensures { OneList }
{}
