//! The options of each command that has some.
use crate::name::Name;

/// The options of `_buchberger`.
#[derive(Clone, Copy, Debug, PartialEq, Eq)]
pub struct BuchbergerOptions {
    /// `-w`: a weight is read behind the set.
    pub weighted: bool,
    /// `-r`: the order is revlex, or ties of the weight are broken by revlex.
    pub revlex: bool,
    /// `--pairs N`: the budget of pairs of each run of Buchberger's algorithm.
    pub pairs: u64,
}

/// The options of `_bases`.
#[derive(Debug, Drop, PartialEq, Eq)]
pub struct BasesOptions {
    /// `-g`: the set is a marked Gröbner basis.
    pub from_basis: bool,
    /// `--limit N`: so many bases are written at most; without it all are.
    pub limit: Option<u64>,
    /// `--pairs N`: the budget of pairs of each run of Buchberger's algorithm.
    pub pairs: u64,
    /// `--certificates`: each basis with a weight, and with a witness of each facet that may be crossed.
    pub certificates: bool,
    /// `--workers N`: how many workers list them.
    pub workers: u32,
    /// `--within FILE`: the file of the vectors that are positive on each weight of the region; without it the region is that of all
    /// positive weights.
    pub within: Option<Name>,
    /// `--after FILE`: the file of the basis behind which the list goes on; without it the list begins with its first basis.
    pub after: Option<Name>,
}

/// The option of `_leadingterms`.
#[derive(Clone, Copy, Debug, PartialEq, Eq)]
pub struct LeadingTermsOptions {
    /// `-m`: a list of marked sets is read.
    pub listed: bool,
}

/// The options of `_groebnercone`.
#[derive(Clone, Copy, Debug, PartialEq, Eq)]
pub struct GroebnerConeOptions {
    /// `--vectorinput`: the cone is given by inequalities and equations, not by a marked reduced basis.
    pub vector_input: bool,
    /// `--certificates`: what shows that these are all, too.
    pub certificates: bool,
    /// `--restrict`: the cone is cut with the non-negative orthant.
    pub restricted: bool,
    /// `--asfan`: the fan of all faces of the cone in place of this.
    pub as_fan: bool,
}

/// The options of `_weightvector`.
#[derive(Clone, Copy, Debug, PartialEq, Eq)]
pub struct WeightVectorOptions {
    /// `-m`: a list of marked sets is read.
    pub listed: bool,
    /// `-e`: each weight behind its set.
    pub echoed: bool,
}

/// The option of `_topolyhedralfan`.
#[derive(Clone, Copy, Debug, PartialEq, Eq)]
pub struct ToPolyhedralFanOptions {
    /// `--restrict`: each cone is cut with the non-negative orthant.
    pub restrict: bool,
}

/// The option of `_tropicalintersection`.
#[derive(Clone, Copy, Debug, PartialEq, Eq)]
pub struct TropicalIntersectionOptions {
    /// `--basistest`: whether the polynomials are a tropical basis of their ideal, in place of the fan.
    pub basis_test: bool,
}

/// What `_generated` is asked.
#[derive(Clone, Copy, Debug, PartialEq, Eq)]
pub struct GeneratedOptions {
    /// The number that stands for an ideal, from 0 to 2147483646.
    pub number: u64,
    /// `--limit N`: so many bases are summed up at most; 1000 without it.
    pub limit: u64,
    /// `--pairs N`: the budget of pairs of each run of Buchberger's algorithm.
    pub pairs: u64,
    /// `--workers N`: how many workers list them.
    pub workers: u32,
}

/// The options of `_fancommonrefinement`.
#[derive(Debug, Drop, PartialEq, Eq)]
pub struct FanCommonRefinementOptions {
    /// `--i1 FILE`: the file of the first fan.
    pub first: Name,
    /// `--i2 FILE`: the file of the second fan.
    pub second: Name,
}

/// The option of `_saturation`.
#[derive(Clone, Copy, Debug, PartialEq, Eq)]
pub struct SaturationOptions {
    /// `--pairs N`: the budget of pairs of each run of Buchberger's algorithm.
    pub pairs: u64,
}

/// What `_interactive` is asked.
#[derive(Debug, Drop, PartialEq, Eq)]
pub struct InteractiveOptions {
    /// The file of the marked reduced basis where the session begins.
    pub file: Name,
    /// `--pairs N`: the budget of pairs of each run of Buchberger's algorithm.
    pub pairs: u64,
}
