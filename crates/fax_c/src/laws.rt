//! Laws of the calls. The functions compute nothing: each has a law as its contract.
ghost use Rattle.fax_c.specs.laws.Stretches.{StretchesStandInParts};

/// The stretches of lost rows of a page are those of its first rows, of which the last is found,
/// and then those of the others: so the stretches of all calls of `faxpages_salvage_from` from a
/// page's first row on are those that `faxpages_salvage` writes.
pub fn stretches_stand_in_parts()
    ensures { StretchesStandInParts }
{}
