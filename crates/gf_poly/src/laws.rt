//! Laws of polynomials, which functions that compute nothing ensure.

ghost use Rattle.gf_poly.specs.Laws.{DescendingListsAreUnique, InitialFormsAreUnique};

/// A polynomial in some number of variables is known by its coefficients: its descending list of terms is the only one.
pub fn unique_terms()
    ensures { DescendingListsAreUnique }
{}

/// A polynomial has one initial form by each weight.
pub fn unique_initial_forms()
    ensures { InitialFormsAreUnique }
{}
