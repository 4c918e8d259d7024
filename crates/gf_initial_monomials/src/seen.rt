//! The lists of initial forms that were tested and passed.
ghost use Rattle.std.specs.Prelude.{◌≡◌, IsTrue};
ghost use Rattle.gf_saturation_theory.specs.Saturations.{HasOneTermMember};

use gf_poly::{Poly, Polys, Term};
use std::alloc::{AllocError, Global};
use std::marker::Model;

/// Lists of initial forms, in some number of variables, whose ideals have no polynomial with a single term: those that were tested at one
/// basis and passed. Its value is the number of variables.
#[derive(Drop)]
pub struct Seen {
    variables: u32,
    lists: Vec<Polys>,
}

impl Model for Seen {
    ghost use Rattle.std.specs.Prelude.{ℕ, All};
    ghost use Rattle.gf_saturation_theory.specs.Saturations.{HasOneTermMember};

    ghost Value = { ℕ };

    ghost view = { λ s. s.variables };

    ghost invariant = { λ s. All (λ fs. HasOneTermMember s.variables fs → ⊥) s.lists.items };
}

/// Whether two terms are the same.
fn is_same_term(x: &Term, y: &Term) -> bool
    ensures { IsTrue result → x.now ≡ y.now }
{
    x.coef == y.coef && x.mono.exponents() == y.mono.exponents()
}

/// Whether two polynomials have the same terms.
fn is_same_poly(f: &Poly, g: &Poly) -> bool
    ensures { IsTrue result → f.now ≡ g.now }
{
    let xs = f.terms();
    let ys = g.terms();
    if xs.len() != ys.len() {
        return false;
    }
    'terms: for i in 0..xs.len() {
        if !is_same_term(&xs[i], &ys[i]) {
            return false;
        }
    }
    true
}

/// Whether two lists have the same polynomials in the same order.
fn is_same_list(fs: &[Poly], gs: &[Poly]) -> bool
    ensures { IsTrue result → fs.now ≡ gs.now }
{
    if fs.len() != gs.len() {
        return false;
    }
    'polynomials: for i in 0..fs.len() {
        if !is_same_poly(&fs[i], &gs[i]) {
            return false;
        }
    }
    true
}

impl Seen {
    /// An empty collection of lists in `n` variables.
    pub fn new(alloc: Global, n: u32) -> Seen
        ensures { result ≡ n }
    {
        Seen {
            variables: n,
            lists: Vec::new(alloc),
        }
    }

    /// Whether this list was tested and passed.
    pub(crate) fn has(&self, forms: &[Poly]) -> bool
        ensures { IsTrue result → HasOneTermMember self.now forms.now → ⊥ }
    {
        let lists = self.lists.as_slice();
        'lists: for i in 0..lists.len() {
            if is_same_list(lists[i].items(), forms) {
                return true;
            }
        }
        false
    }

    /// Adds a list that was tested and passed.
    ///
    /// # Errors
    /// Only when memory runs out.
    pub(crate) fn keep(&mut self, forms: Vec<Poly>) -> Result<(), AllocError>
        requires { HasOneTermMember self.old forms.items → ⊥ }
        ensures { self.new ≡ self.old }
    {
        self.lists.push(Polys::new(forms))?;
        Ok(())
    }
}
