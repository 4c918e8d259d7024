//! Which terms are reduced first. Nothing is asked of it: reductions end by any.

use gf_poly::Mono;

/// An order in which terms are taken: by a weight, and of equally heavy ones by lex or revlex.
///
/// Equal terms meet before they are reduced where the marks are greatest by it. A weight of fewer entries than there are variables
/// counts zeros for the rest.
#[derive(Drop)]
pub struct Precedence {
    weight: Vec<i64>,
    by_revlex: bool,
}

impl Precedence {
    /// By this weight and then lex, or revlex.
    pub fn by(weight: Vec<i64>, by_revlex: bool) -> Precedence {
        Precedence { weight, by_revlex }
    }

    /// How heavy a monomial is.
    fn heft(&self, x: &[u32]) -> i128 {
        let mut sum = 0i128;
        'entries: for (w, e) in self.weight.iter().zip(x) {
            sum = sum.wrapping_add(i128::from(*w).wrapping_mul(i128::from(*e)));
        }
        sum
    }

    /// Whether `x` is taken before `y`.
    pub fn is_before(&self, x: &Mono, y: &Mono) -> bool {
        let (x, y) = (x.exponents(), y.exponents());
        let (left, right) = (self.heft(x), self.heft(y));
        if left != right {
            return left > right;
        }
        if self.by_revlex {
            return is_greater_by_revlex(x, y);
        }
        x > y
    }
}

/// Whether the last exponent that differs is smaller.
fn is_greater_by_revlex(x: &[u32], y: &[u32]) -> bool {
    let mut greater = false;
    'entries: for (a, b) in x.iter().zip(y) {
        if a != b {
            greater = a < b;
        }
    }
    greater
}
