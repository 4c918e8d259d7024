//! Which monomials are reduced first in a long reduction: the greatest by an order in which the marks are greatest, so that equal
//! terms meet before they are reduced. Nothing is asked of it: reductions end by any.

ghost use Rattle.std.specs.Prelude.{◌≤◌, length};
ghost use Rattle.gf_poly.specs.declared.TheConstants.{ROOM};
ghost use Rattle.gf_division.specs.Keys.{AreKeyExponents};

use crate::weights::{heft_of, weight_of};
use gf_poly::{Marked, Mono, ROOM};
use std::alloc::{AllocError, Global};
use std::collections::BinaryHeap;

/// How many steps by the rule come first where the order of the marks is another one: short reductions need no other.
const PATIENCE: u64 = 64;

/// How many rounds a weight of the marks is looked for at most.
const ROUNDS: u64 = 20_000;

/// An order in which marks are greatest: a weight, and of one weight lex or revlex.
///
/// A weight of no entries, or of fewer than there are variables, counts zeros for the rest.
#[derive(Drop)]
pub struct Guide {
    weight: Vec<i64>,
    by_revlex: bool,
    is_known: bool,
    patience: u64,
}

impl Guide {
    /// The order by this weight and then lex, or revlex.
    pub fn by(weight: Vec<i64>, by_revlex: bool) -> Guide {
        Guide {
            weight,
            by_revlex,
            is_known: true,
            patience: PATIENCE,
        }
    }

    /// A weight of the marks, and then lex; it is looked for once a reduction is long.
    pub fn unknown(alloc: Global) -> Guide {
        Guide {
            weight: Vec::new(alloc),
            by_revlex: false,
            is_known: false,
            patience: PATIENCE,
        }
    }

    /// The order by this weight and then lex, from the first step on.
    pub fn at_once(weight: Vec<i64>) -> Guide {
        Guide {
            weight,
            by_revlex: false,
            is_known: true,
            patience: 0,
        }
    }

    /// Whether this is the order by which the rule goes.
    fn is_by_degree(&self) -> bool {
        if self.weight.is_empty() || self.by_revlex || self.weight[0] < 1 {
            return false;
        }
        let first = self.weight[0];
        'entries: for w in &self.weight {
            if *w != first {
                return false;
            }
        }
        true
    }

    /// How many steps by the rule come first.
    pub(crate) fn patience(&self) -> u64 {
        if self.is_by_degree() {
            return u64::MAX;
        }
        self.patience
    }

    /// Looks for a weight of these marks, unless an order is known.
    pub(crate) fn find(&mut self, alloc: Global, by: &[Marked]) {
        if self.is_known {
            return;
        }
        self.is_known = true;
        if let Some((weight, _)) = weight_of(alloc, by, ROUNDS) {
            self.weight = weight;
        }
    }
}

/// A monomial that waits, arranged so that lists compare as monomials do.
#[derive(Clone, Copy, Debug, PartialEq, Eq, PartialOrd, Ord)]
struct Waiting {
    level: i128,
    exponents: [u32; ROOM],
}

/// The exponents arranged so that lists compare as monomials do by lex or by revlex: by revlex the last exponent decides,
/// and the smaller one is greater. Twice gives them back. At most `ROOM` exponents; behind them stand zeros.
pub fn arranged(x: &[u32], by_revlex: bool) -> [u32; ROOM]
    requires { length x.now ≤ ROOM }
    ensures { AreKeyExponents by_revlex x.now result }
{
    let mut all = [0; ROOM];
    let n = x.len();
    'variables: for i in 0..n {
        all[i] = if by_revlex {
            u32::MAX - x[n - 1 - i]
        } else {
            x[i]
        };
    }
    all
}

/// The monomial with these exponents, if they are within the limit.
pub(crate) fn monomial(alloc: Global, exponents: &[u32]) -> Option<Mono> {
    if exponents.len() > ROOM {
        return None;
    }
    'entries: for i in 0..exponents.len() {
        if exponents[i] >= 1 << 31 {
            return None;
        }
    }
    Some(Mono::new(alloc, exponents))
}

/// Whether a mark divides `x`; a mark in other variables doesn't.
fn is_open(x: &Mono, marks: &[Mono]) -> bool {
    let degree = x.degree();
    'marks: for j in 0..marks.len() {
        let mark = &marks[j];
        if mark.degree() <= degree
            && mark.exponents().len() == x.exponents().len()
            && mark.divides(x)
        {
            return true;
        }
    }
    false
}

/// The marked monomials.
fn marks_of(alloc: Global, by: &[Marked]) -> Result<Vec<Mono>, AllocError> {
    let mut marks = Vec::with_capacity(alloc, by.len())?;
    'members: for j in 0..by.len() {
        marks.push(by[j].head().copy())?;
    }
    Ok(marks)
}

/// Monomials that wait to be reduced: those that a mark divides.
#[derive(Drop)]
pub struct Front {
    marks: Vec<Mono>,
    weight: Vec<i64>,
    by_revlex: bool,
    n: usize,
    heap: BinaryHeap<Waiting>,
}

impl Front {
    /// The front without monomials, for the marks of these members and the order of the guide.
    ///
    /// # Errors
    ///
    /// `AllocError` if memory runs out.
    pub fn new(alloc: Global, guide: &Guide, by: &[Marked]) -> Result<Front, AllocError> {
        Ok(Front {
            marks: marks_of(alloc, by)?,
            weight: guide.weight.clone()?,
            by_revlex: guide.by_revlex,
            n: 0,
            heap: BinaryHeap::new(alloc),
        })
    }

    /// How many wait.
    pub fn len(&self) -> usize {
        self.heap.len()
    }

    /// Adds a monomial, if a mark divides it; all have equally many variables.
    ///
    /// # Errors
    ///
    /// `AllocError` if memory runs out.
    pub fn push(&mut self, x: &Mono) -> Result<(), AllocError> {
        if !is_open(x, &self.marks) {
            return Ok(());
        }
        self.n = x.exponents().len();
        let waiting = self.waiting(x);
        self.heap.push(waiting)?;
        Ok(())
    }

    /// The monomial as it waits.
    fn waiting(&self, x: &Mono) -> Waiting {
        let exponents = x.exponents();
        Waiting {
            level: heft_of(&self.weight, exponents),
            exponents: arranged(exponents, self.by_revlex),
        }
    }

    /// Whether `x` comes before all that wait.
    pub fn is_ahead(&self, x: &Mono) -> bool {
        match self.heap.peek() {
            Some(top) => *top < self.waiting(x),
            None => true,
        }
    }

    /// Takes the greatest monomial out.
    pub fn pop(&mut self, alloc: Global) -> Option<Mono> {
        let top = self.heap.pop()?;
        let n = self.n;
        if n > ROOM {
            return None;
        }
        let exponents = arranged(&top.exponents[..n], self.by_revlex);
        monomial(alloc, &exponents[..n])
    }
}
