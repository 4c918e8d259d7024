//! A theorem on sessions over bases. The function computes nothing: its contract is the theorem, so that the check proves it.
ghost use Rattle.std.specs.Prelude.{ℕ, List};
ghost use Rattle.gf_basis_states.specs.Trails.{TrailsAreDetermined};

/// Lines lead from a basis to at most one basis, with one transcript: there is at most one basis across a facet, and the normals that a
/// flip may cross form one ascending list. A choice followed by `u` gives the session before the choice.
pub fn trails_are_determined()
    ensures { (names : List (List ℕ)) → TrailsAreDetermined names }
{}
