//! Laws of these generators, ensured by a function that computes nothing.
ghost use Rattle.gf_generated.specs.Laws.{GeneratorsAreBinomials};

/// The generators are pure difference binomials in four variables, and none of them is zero.
pub fn generators_are_binomials()
    ensures { GeneratorsAreBinomials }
{}
