//! Theorems on printed weights and witnesses. The functions compute nothing: the contract of each is the theorem.
ghost use Rattle.std.specs.Prelude.{[]};
ghost use Rattle.gf_weights.specs.Roots.{RegionsAreOne, IsRegionWithinLimits};
ghost use Rattle.gf_weights.specs.Laws.{WeightsGiveBases, WitnessesAreInside, CertificatesAreUnique, CertificatesExist};

/// If some vector of the region sets each mark above the rest, so does the printed weight, which then is in the region. A marked reduced
/// basis is the reduced one for its printed weight (Fukuda, Jensen, Thomas, *Computing Gröbner fans*, 2).
pub fn weights_give_bases()
    ensures { WeightsGiveBases }
{}

/// The printed witness of a facet that a flip may cross is in the region, zero on the facet's normal, and positive on all other
/// normals.
pub fn witnesses_are_inside()
    ensures { WitnessesAreInside }
{}

/// A marked list has at most one printed weight, and each facet at most one witness.
pub fn certificates_are_unique()
    ensures { CertificatesAreUnique }
{}

/// A marked list has a printed weight, and a list of the facets that a flip may cross, each with its printed witness, however large their
/// entries are.
pub fn certificates_exist()
    ensures { CertificatesExist }
{}

/// Rows cut out at most one region. If they do, no multipliers show that it is empty, and no entry of its root is greater than `2^63 - 1`.
/// If multipliers show that it is empty, no positive vector is positive on each row.
pub fn regions_are_one()
    ensures { RegionsAreOne }
{}

/// All positive weights of one variable form a region, and no operation of finding its root leaves its limits.
pub fn a_region_is_within_limits()
    ensures { IsRegionWithinLimits 1 [] }
{}
