//! Total degrees.
ghost use Rattle.std.specs.Prelude.{◌≡◌};
ghost use Rattle.gf_poly.specs.Polynomial.{IsDescending};
ghost use Rattle.gf_small.specs.Degrees.{total_degree as degree_of};

use gf_poly::Term;

/// The total degree of a polynomial, which is the degree of its deglex greatest term; 0 if it has none.
pub(crate) fn total_degree(terms: &[Term]) -> u64
    requires { IsDescending terms.now }
    ensures { result ≡ degree_of terms.now }
{
    if terms.is_empty() {
        return 0;
    }
    terms[0].mono.degree()
}
