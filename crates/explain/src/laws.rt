//! What a valid certificate shows.

ghost use Rattle.explain.specs.Laws.{HopsLead, OriginSettles, EndStays, EndMeans, OneEnd};
ghost use Rattle.explain.specs.Laws.{ValidIsSpelled};

use alias_ref::one_meaning;

/// Of a certificate that is valid in a tree each hop is a reference that leads to its target, the place that is explained
/// settles at the end, and the end is no reference.
pub fn valid_explains()
    ensures hops { HopsLead }
    ensures origin { OriginSettles }
    ensures end { EndStays }
{}

/// What the end of a valid certificate means, the place that is explained means; and valid certificates of one place have one
/// end.
pub fn explained_value()
    ensures value { EndMeans }
    ensures end { OneEnd }
{
    one_meaning();
}

/// A certificate that is valid in a tree whose tokens have a place in lines is spelled by its lines, and is what is read of
/// them.
pub fn valid_is_spelled()
    ensures { ValidIsSpelled }
{}
