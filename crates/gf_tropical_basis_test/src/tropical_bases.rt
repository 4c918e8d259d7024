//! Theorems on tropical bases: at which vectors of a prevariety the initial ideal has no polynomial with a single term, and why a test
//! of finitely many vectors decides for all of them. The functions compute nothing: the contract of each is the theorem.
ghost use Rattle.gf_tropical_basis_test.specs.TropicalBases.{MonomialsDecide, TropicalBasesAreTested, TropicalVarietiesAreInside};

/// At a vector of the closed cone of a marked reduced Gröbner basis the initial forms of its members decide whether the initial ideal has a
/// polynomial with a single term. An initial form with a single term shows it at once. The members have the same initial forms at all vectors
/// of the relative interior of a cone inside the closed cone.
pub fn monomials_decide()
    ensures { MonomialsDecide }
{}

/// Polynomials are a tropical basis of their ideal if one vector of each face of each intersection of a cone of the prevariety with the closed
/// cone of a reduced basis passes: the initial ideal there has no polynomial with a single term. A vector that fails is on the prevariety, and
/// the initial ideal there has one (Maclagan, Sturmfels, *Introduction to Tropical Geometry*, 2.6).
pub fn tropical_bases_are_tested()
    ensures { TropicalBasesAreTested }
{}

/// The tropical variety of an ideal is contained in the prevariety of its generators, none of which is zero: if the initial ideal at a vector
/// has no polynomial with a single term, the vector is on the prevariety (Maclagan, Sturmfels, *Introduction to Tropical Geometry*, 3.2).
pub fn tropical_varieties_are_inside()
    ensures { TropicalVarietiesAreInside }
{}
