//! Homogenization by a new last variable.
ghost use Rattle.std.specs.Prelude.{◌≡◌, ◌≤◌, ◌<◌, ◌+◌, ◌^◌, ◌++◌, ◌∷◌, [], ℕ, All, IfOk, IfErr, length, map, true, false};
ghost use Rattle.gf_exponents_theory.specs.Exponents.{Exponents, degree};
ghost use Rattle.gf_poly.specs.Polynomial.{HasVariables, IsDescending, KeepsVariables, SamePolynomial};
ghost use Rattle.gf_poly.specs.Collecting.{like};
ghost use Rattle.gf_text.specs.RingText.{is_name, has};
ghost use Rattle.gf_text.specs.Sets.{IsIn, AreIn};
ghost use Rattle.gf_small.specs.declared.homogenization.SmallError.TheVariants.{Memory};
ghost use Rattle.gf_small.specs.Degrees.{total_degree as degree_of};
ghost use Rattle.gf_small.specs.Homogenization.{new_exponent as exponent_of, filled_term as term_of, ExponentsFit, IsHomogenizedWithinLimit};
ghost use Rattle.gf_small.specs.Homogenization.{IsExponentPastLimit, IsFirstPastLimit, IsWrittenPastLimit, IsFirstExponentPastLimit, IsMarkedHomogenization};
ghost use Rattle.gf_small.specs.Homogenization.{IsWrittenHomogenization, AreHomogenizations, IsHomogenizeCause, HasExponent};

use crate::degrees::total_degree;
use gf_division::index_of;
use gf_poly::{ExponentOverflow, Marked, Mono, Poly, PolyError, ROOM, Term, filled};
use gf_text::{MOST_VARIABLES, Ring, Written};
use std::alloc::{AllocError, AllocFailed, Global};

/// The greatest exponent.
const MOST: u64 = (1 << 31) - 1;

/// Why polynomials can't be homogenized.
#[derive(Clone, Copy, Debug, PartialEq, Eq)]
pub enum SmallError {
    /// An exponent of the new variable passes `2^31 - 1`: this limit, and the difference of the exponent and the limit.
    Exponent(ExponentOverflow),
    /// The ring would have this number of variables, which is more than `MOST_VARIABLES`.
    TooManyVariables { count: u64 },
    /// Memory runs out.
    Memory,
}

impl From<ExponentOverflow> for SmallError {
    ghost use Rattle.gf_small.specs.declared.homogenization.SmallError.TheVariants as errors;

    ghost from_gives = { λ o e. e ≡ errors.Exponent o };

    fn from(overflow: ExponentOverflow) -> SmallError {
        SmallError::Exponent(overflow)
    }
}

impl From<AllocError> for SmallError {
    ghost use Rattle.gf_small.specs.declared.homogenization.SmallError.TheVariants as errors;

    ghost from_gives = { λ _ e. e ≡ errors.Memory };

    fn from(_: AllocError) -> SmallError {
        SmallError::Memory
    }
}

impl<T: Drop> From<AllocFailed<T>> for SmallError {
    ghost use Rattle.gf_small.specs.declared.homogenization.SmallError.TheVariants as errors;

    ghost from_gives = { λ _ e. e ≡ errors.Memory };

    fn from(_: AllocFailed<T>) -> SmallError {
        SmallError::Memory
    }
}

/// `d` minus the degree of a monomial.
fn new_exponent(d: u64, x: &Mono) -> Result<u32, ExponentOverflow>
    requires { degree x.now ≤ d }
    ensures value { IfOk result (λ exponent. exponent ≡ exponent_of d x.now) }
    ensures fits { IfOk result (λ exponent. exponent < 2 ^ 31) }
    ensures past { IfErr result (IsExponentPastLimit (exponent_of d x.now)) }
{
    let exponent = d - x.degree();
    if exponent > MOST {
        return Err(ExponentOverflow {
            left: MOST,
            right: exponent - MOST,
        });
    }
    Ok(exponent as u32)
}

/// The term times the power of the new variable that brings its degree to `d`.
fn filled_term(alloc: Global, d: u64, t: &Term) -> Result<Term, ExponentOverflow>
    requires room { length t.now.mono < ROOM }
    requires below { degree t.now.mono ≤ d }
    ensures value { IfOk result (λ term. term ≡ term_of d t.now) }
    ensures fits { IfOk result (λ _. exponent_of d t.now.mono < 2 ^ 31) }
    ensures past { IfErr result (IsExponentPastLimit (exponent_of d t.now.mono)) }
{
    let exponent = new_exponent(d, &t.mono)?;
    Ok(Term {
        coef: t.coef,
        mono: filled(alloc, &t.mono, exponent),
    })
}

/// The terms times the powers of the new variable that bring their degrees to `d`, in their order.
fn filled_terms(alloc: Global, d: u64, terms: &[Term]) -> Result<Vec<Term>, SmallError>
    requires room { (n : ℕ) × ((n < ROOM) × HasVariables n terms.now) }
    requires below { degree_of terms.now ≤ d }
    ensures value { IfOk result (λ all. all.items ≡ map (term_of d) terms.now) }
    ensures fits { IfOk result (λ _. ExponentsFit d terms.now) }
    ensures cause { IfErr result (HasExponent (IsFirstPastLimit d terms.now)) }
{
    let mut all = Vec::with_capacity(alloc, terms.len())?;
    'terms: for i in 0..terms.len() {
        let t = filled_term(alloc, d, &terms[i])?;
        all.push(t)?;
    }
    Ok(all)
}

/// The polynomial with these terms, no two of which are alike.
fn sum_of(terms: Vec<Term>) -> Result<Poly, AllocError>
    requires { (x : Exponents) → length (like x terms.items) ≤ 1 }
    ensures value { IfOk result (λ p. SamePolynomial p terms.items) }
    ensures descending { IfOk result IsDescending }
    ensures variables { IfOk result (KeepsVariables terms.items) }
{
    match Poly::from_terms(terms) {
        Ok(poly) => Ok(poly),
        Err(PolyError::Overflow(_)) => unreachable!(),
        Err(PolyError::Exponent(_)) => unreachable!(),
        Err(PolyError::Memory) => Err(AllocError),
    }
}

/// The homogenization of a marked polynomial, marked at the term that the marked term becomes.
fn marked_homogenization(alloc: Global, b: &Marked) -> Result<Marked, SmallError>
    requires { (n : ℕ) × ((n < ROOM) × HasVariables n b.now.poly) }
    ensures value { IfOk result (IsMarkedHomogenization b.now) }
    ensures fits { IfOk result (λ _. ExponentsFit (degree_of b.now.poly) b.now.poly) }
    ensures cause { IfErr result (HasExponent (IsFirstPastLimit (degree_of b.now.poly) b.now.poly)) }
{
    let terms = b.poly().terms();
    let all = filled_terms(alloc, total_degree(terms), terms)?;
    let head = all[b.index()].mono.copy();
    let poly = sum_of(all)?;
    let index = index_of(poly.terms(), &head);
    Ok(Marked::mark(poly, index))
}

/// The homogenization of a polynomial that may be zero.
fn written_homogenization(alloc: Global, f: &Written) -> Result<Written, SmallError>
    requires { (n : ℕ) × ((n < ROOM) × IsIn n f.now) }
    ensures value { IfOk result (IsWrittenHomogenization f.now) }
    ensures fits { IfOk result (λ _. IsHomogenizedWithinLimit f.now) }
    ensures cause { IfErr result (HasExponent (IsWrittenPastLimit f.now)) }
{
    match f {
        Written::Zero => Ok(Written::Zero),
        Written::Nonzero(b) => {
            let b = marked_homogenization(alloc, b)?;
            Ok(Written::Nonzero(b))
        }
    }
}

/// The homogenizations of polynomials in `n` variables, in their order.
fn homogenizations(alloc: Global, n: u32, set: &[Written]) -> Result<Vec<Written>, SmallError>
    requires room { n < ROOM }
    requires variables { AreIn n set.now }
    ensures value { IfOk result (λ all. AreHomogenizations set.now all.items) }
    ensures variables { IfOk result (λ all. AreIn (n + 1) all.items) }
    ensures fits { IfOk result (λ _. All IsHomogenizedWithinLimit set.now) }
    ensures cause { IfErr result (HasExponent (IsFirstExponentPastLimit set.now)) }
    ensures complete { All IsHomogenizedWithinLimit set.now → IfErr result (λ e. e ≡ Memory) }
{
    let mut all = Vec::with_capacity(alloc, set.len())?;
    'polynomials: for f in set {
        let g = written_homogenization(alloc, f)?;
        all.push(g)?;
    }
    Ok(all)
}

/// The ring with a new last variable, whose name is given, and the homogenizations of polynomials of the ring, in their order: each term is
/// multiplied by the power of the new variable that brings its degree to the total degree of its polynomial. The mark of a homogenization
/// is the term that the marked term becomes. The homogenization of zero is zero. No variable of the ring has the given name (Cox, Little,
/// O'Shea, *Ideals, Varieties, and Algorithms*, 8.2).
///
/// # Errors
///
/// - `TooManyVariables` if and only if the ring already has `MOST_VARIABLES` variables; it holds the new number.
/// - `Exponent` if and only if there is room, and a new exponent is greater than `2^31 - 1`. It holds this limit and the difference of the
///   exponent and the limit, for the first polynomial with such a term and its deglex greatest such term.
/// - `Memory`: memory runs out.
pub fn homogenize(
    alloc: Global,
    ring: &Ring,
    set: &[Written],
    name: &[u8],
) -> Result<(Ring, Vec<Written>), SmallError>
    requires named { is_name name.now ≡ true }
    requires new { has ring.now name.now ≡ false }
    requires variables { AreIn (length ring.now) set.now }
    ensures ring { IfOk result (λ h. h.0 ≡ ring.now ++ name.now ∷ []) }
    ensures set { IfOk result (λ h. AreHomogenizations set.now h.1.items) }
    ensures variables { IfOk result (λ h. AreIn (length h.0) h.1.items) }
    ensures room { IfOk result (λ _. length ring.now < MOST_VARIABLES) }
    ensures fits { IfOk result (λ _. All IsHomogenizedWithinLimit set.now) }
    ensures cause { IfErr result (IsHomogenizeCause (length ring.now) set.now) }
    ensures complete { length ring.now < MOST_VARIABLES → All IsHomogenizedWithinLimit set.now → IfErr result (λ e. e ≡ Memory) }
{
    let n = ring.len();
    if n as usize >= MOST_VARIABLES {
        return Err(SmallError::TooManyVariables {
            count: u64::from(n) + 1,
        });
    }
    let set = homogenizations(alloc, n, set)?;
    let ring = ring.extended(alloc, name)?;
    Ok((ring, set))
}
