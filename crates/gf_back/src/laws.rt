//! Theorems on the flip back. The functions compute nothing: the contract of each is a theorem, so that the check proves it.
ghost use Rattle.gf_back.specs.Back.{FlipsLeadBack};

/// From the basis on the other side of a facet a flip may cross back, and it returns the basis at which the first flip started; there is
/// only one such basis (Fukuda, Jensen, Thomas, *Computing Gröbner fans*, 4).
pub fn flips_lead_back()
    ensures { FlipsLeadBack }
{}
