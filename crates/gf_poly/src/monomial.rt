//! Monomials: up to `ROOM` exponents, kept inline with zeros behind them, with their sum and with a word of the variables that occur. Loops
//! that go over all indices are unrolled, so that they take a few wide instructions.

ghost use Rattle.std.specs.Prelude.{◌≡◌, ◌+◌, ◌≤◌, ◌<◌, ◌^◌, ◌↔◌, length, take, replicate, slice_index, slice_set, bit_and, bit_xor, All, IfOk, IfErr, OnOk};
ghost use Rattle.std.specs.Prelude.{OnErr, IsOk, IsTrue};
ghost use Rattle.gf_exponents_theory.specs.Exponents.{plus, minus, join, Divides, degree as total_degree};
ghost use Rattle.gf_exponents_theory.specs.Orders.{lex, deglex};
ghost use Rattle.gf_poly.specs.Monomial.{IsMonomial, IsPlaced, IsWordOf, ProductFits, IsFirstOverflow};

use super::ROOM;
use smallvec::SmallVec;
use std::alloc::Global;
use std::cmp::Ordering;
use std::marker::Model;

/// The greatest exponent.
const MOST: u32 = (1 << 31) - 1;

/// A monomial, as the list of its exponents, the first variable first.
#[derive(Drop)]
pub struct Mono {
    total: u64,
    word: u32,
    count: u32,
    indices: SmallVec<u32, ROOM>,
}

impl Model for Mono {
    ghost use Rattle.std.specs.Prelude.{take};
    ghost use Rattle.gf_exponents_theory.specs.Exponents.{Exponents};
    ghost use Rattle.gf_poly.specs.Monomial.{IsMono};

    ghost Value = { Exponents };

    ghost view = { λ m. take m.count m.indices.items };

    ghost invariant = { λ m. IsMono m.total m.word m.count m.indices };
}

/// Two exponents of one variable whose sum is above `2^31 - 1`.
#[derive(Clone, Copy, Debug, PartialEq, Eq)]
pub struct ExponentOverflow {
    pub left: u64,
    pub right: u64,
}

/// The sum of the exponents.
fn total_of(exponents: &[u32]) -> u64
    requires room { length exponents.now ≤ ROOM }
    requires limit { All (λ x. x < 2 ^ 31) exponents.now }
    ensures { result ≡ total_degree exponents.now }
{
    let mut total = 0;
    'entries: for i in 0..exponents.len() {
        total += u64::from(exponents[i]);
    }
    total
}

/// The word of the variables that occur, the first variable's bit the highest of `ROOM`: set where the exponent is another than 0.
fn word_of(exponents: &[u32]) -> u32
    requires { length exponents.now ≤ ROOM }
    ensures { IsWordOf exponents.now result }
{
    let mut word = 0u32;
    'entries: for i in 0..exponents.len() {
        if exponents[i] != 0 {
            word |= 1 << (ROOM - 1 - i);
        }
    }
    word
}

/// The sum of two exponents.
fn sum_of(x: u32, y: u32) -> u32
    requires left { x < 2 ^ 31 }
    requires right { y < 2 ^ 31 }
    ensures { result ≡ x + y }
{
    x + y
}

/// Whether sums are within the limit, one more among them.
fn still_fits(fits: bool, sum: u32) -> bool
    ensures yes { IsTrue result → IsTrue fits × (sum < 2 ^ 31) }
    ensures no { IsTrue fits → sum < 2 ^ 31 → IsTrue result }
{
    fits & (sum <= MOST)
}

/// The exponents of the first variable whose sum is above the limit.
fn first_overflow(x: &[u32], y: &[u32]) -> ExponentOverflow
    requires left { length x.now ≡ ROOM }
    requires right { length y.now ≡ ROOM }
    requires some { ProductFits x.now y.now → ⊥ }
    ensures { IsFirstOverflow x.now y.now result }
{
    'entries: for i in 0..ROOM {
        let left = u64::from(x[i]);
        let right = u64::from(y[i]);
        if left + right > u64::from(MOST) {
            return ExponentOverflow { left, right };
        }
    }
    unreachable!()
}

/// The exponents of the product, or the first two whose sum is above the limit.
fn sums(x: &[u32], y: &[u32]) -> Result<[u32; ROOM], ExponentOverflow>
    requires left { length x.now ≡ ROOM }
    requires right { length y.now ≡ ROOM }
    requires left_limit { All (λ k. k < 2 ^ 31) x.now }
    requires right_limit { All (λ k. k < 2 ^ 31) y.now }
    ensures product { IfOk result (λ s. s ≡ plus x.now y.now) }
    ensures fits { IfOk result (λ s. ProductFits x.now y.now) }
    ensures overflow { IfErr result (IsFirstOverflow x.now y.now) }
{
    let mut all = [0; ROOM];
    let mut fits = true;
    'entries: for i in 0..ROOM {
        let sum = sum_of(x[i], y[i]);
        fits = still_fits(fits, sum);
        all[i] = sum;
    }
    if !fits {
        return Err(first_overflow(x, y));
    }
    Ok(all)
}

/// Whether each variable of the word `x` is one of the word `y`.
fn is_within(x: u32, y: u32) -> bool
    ensures { IsTrue result ↔ (bit_and x y ≡ x) }
{
    x & y == x
}

/// Whether a variable is in one of the two words alone, and none before the first such one is in both. Monomials with these
/// words then compare by lex as the words do.
fn words_decide(x: u32, y: u32) -> bool
    ensures { IsTrue result ↔ (bit_and x y < bit_xor x y) }
{
    x & y < x ^ y
}

/// Whether two monomials have the same exponents in all indices.
fn are_same(x: &[u32], y: &[u32]) -> bool
    requires left { length x.now ≡ ROOM }
    requires right { length y.now ≡ ROOM }
    ensures { IsTrue result ↔ (x.now ≡ y.now) }
{
    let mut same = true;
    'entries: for i in 0..ROOM {
        same = still_same(same, x[i], y[i]);
    }
    same
}

/// Whether exponents are the same, two more among them.
fn still_same(same: bool, x: u32, y: u32) -> bool
    ensures { IsTrue result ↔ (IsTrue same × (x ≡ y)) }
{
    same & (x == y)
}

/// The comparison of lists by the first entry that differs, and then by their lengths.
fn lex_order(x: &[u32], y: &[u32]) -> Ordering
    ensures { result ≡ lex x.now y.now }
{
    'entries: for i in 0..x.len().min(y.len()) {
        if x[i] < y[i] {
            return Ordering::Less;
        }
        if x[i] > y[i] {
            return Ordering::Greater;
        }
    }
    x.len().cmp(&y.len())
}

/// Whether each exponent of `x` is at most that of `y`.
fn is_below(x: &[u32], y: &[u32]) -> bool
    requires { length x.now ≡ length y.now }
    ensures { IsTrue result ↔ Divides x.now y.now }
{
    'entries: for i in 0..x.len() {
        if y[i] < x[i] {
            return false;
        }
    }
    true
}

/// The exponents of `x` less those of `y`.
fn differences(x: &[u32], y: &[u32]) -> [u32; ROOM]
    requires left { length x.now ≡ ROOM }
    requires right { length y.now ≡ ROOM }
    requires divides { Divides y.now x.now }
    ensures { result ≡ minus x.now y.now }
{
    let mut all = [0; ROOM];
    'entries: for i in 0..ROOM {
        all[i] = x[i] - y[i];
    }
    all
}

/// The greater exponent of each variable.
fn maxima(x: &[u32], y: &[u32]) -> [u32; ROOM]
    requires left { length x.now ≡ ROOM }
    requires right { length y.now ≡ ROOM }
    ensures { result ≡ join x.now y.now }
{
    let mut all = [0; ROOM];
    'entries: for i in 0..ROOM {
        all[i] = if x[i] < y[i] { y[i] } else { x[i] };
    }
    all
}

/// All indices of a monomial.
fn whole(x: &[u32]) -> [u32; ROOM]
    requires { length x.now ≡ ROOM }
    ensures { result ≡ x.now }
{
    let mut all = [0; ROOM];
    'entries: for i in 0..ROOM {
        all[i] = x[i];
    }
    all
}

/// The exponents, and zeros behind them.
fn padded(exponents: &[u32]) -> [u32; ROOM]
    requires { IsMonomial exponents.now }
    ensures { IsPlaced exponents.now result }
{
    let mut all = [0; ROOM];
    'entries: for i in 0..exponents.len() {
        all[i] = exponents[i];
    }
    all
}

impl Mono {
    /// The monomial with these exponents, one for each variable.
    pub fn new(alloc: Global, exponents: &[u32]) -> Mono
        requires { IsMonomial exponents.now }
        ensures { result ≡ exponents.now }
    {
        Mono::known(
            alloc,
            padded(exponents),
            exponents.len(),
            total_of(exponents),
            word_of(exponents),
        )
    }

    /// The monomial 1 in n variables, at most `ROOM`.
    pub fn one(alloc: Global, n: usize) -> Mono
        requires { n ≤ ROOM }
        ensures { result ≡ replicate n 0 }
    {
        Mono::known(alloc, [0; ROOM], n, 0, 0)
    }

    /// The monomial with the first `n` of these exponents, whose sum and word are known.
    fn known(alloc: Global, all: [u32; ROOM], n: usize, total: u64, word: u32) -> Mono
        requires room { n ≤ ROOM }
        requires placed { IsPlaced (take n all) all }
        requires total { total ≡ total_degree (take n all) }
        requires word { IsWordOf (take n all) word }
        ensures { result ≡ take n all }
    {
        Mono {
            total,
            word,
            count: n as u32,
            indices: SmallVec::from_buf(alloc, all),
        }
    }

    /// How many variables there are.
    fn variables(&self) -> usize
        ensures { result ≡ length self.now }
    {
        self.count as usize
    }

    /// All indices, the exponents first.
    fn indices(&self) -> &[u32]
        ensures { IsPlaced self.now result.now }
    {
        self.indices.as_slice()
    }

    /// The exponents, the first variable first.
    pub fn exponents(&self) -> &[u32]
        ensures value { result.now ≡ self.now }
        ensures valid { IsMonomial self.now }
    {
        &self.indices.as_slice()[..self.count as usize]
    }

    /// An equal monomial.
    pub fn copy(&self) -> Mono
        ensures { result ≡ self.now }
    {
        Mono::known(
            *self.indices.allocator(),
            whole(self.indices()),
            self.variables(),
            self.total,
            self.word,
        )
    }

    /// The total degree.
    pub fn degree(&self) -> u64
        ensures { result ≡ total_degree self.now }
    {
        self.total
    }

    /// The word of the variables that occur.
    fn word(&self) -> u32
        ensures { IsWordOf self.now result }
    {
        self.word
    }

    /// Multiplies by a power of a variable, counted from 0 and one of the monomial's; the exponent is at most `2^31 - 1`.
    ///
    /// # Errors
    ///
    /// `ExponentOverflow` exactly where the sum of the variable's exponent and that of the power is above `2^31 - 1`; it
    /// holds the two, and the monomial is as before.
    #[inline]
    pub fn raise(&mut self, variable: usize, by: u32) -> Result<(), ExponentOverflow>
        requires variable { variable < length self.old }
        requires limit { by < 2 ^ 31 }
        ensures product { OnOk result (self.new ≡ slice_set self.old variable (slice_index self.old variable + by)) }
        ensures fits { IsOk result ↔ (slice_index self.old variable + by < 2 ^ 31) }
        ensures overflow { IfErr result (λ o. o ≡ record { left = slice_index self.old variable; right = by }) }
        ensures unchanged { OnErr result (self.new ≡ self.old) }
    {
        let indices = self.indices.as_mut_slice();
        let exponent = indices[variable];
        if by > MOST - exponent {
            return Err(ExponentOverflow {
                left: u64::from(exponent),
                right: u64::from(by),
            });
        }
        indices[variable] = exponent + by;
        self.total += u64::from(by);
        if by != 0 {
            self.word |= 1 << (ROOM - 1 - variable);
        }
        Ok(())
    }

    /// The product with `other`, which has the same variables.
    ///
    /// # Errors
    ///
    /// `ExponentOverflow` exactly where the sum of two exponents is above `2^31 - 1`; it holds the two of the first
    /// such variable.
    pub fn mul(&self, other: &Mono) -> Result<Mono, ExponentOverflow>
        requires { length self.now ≡ length other.now }
        ensures product { IfOk result (λ m. m ≡ plus self.now other.now) }
        ensures fits { IsOk result ↔ ProductFits self.now other.now }
        ensures overflow { IfErr result (IsFirstOverflow self.now other.now) }
    {
        let all = sums(self.indices(), other.indices())?;
        Ok(Mono::known(
            *self.indices.allocator(),
            all,
            self.variables(),
            self.total + other.total,
            self.word | other.word,
        ))
    }

    /// Whether `other`, which has the same variables, is a multiple of this monomial.
    pub fn divides(&self, other: &Mono) -> bool
        requires { length self.now ≡ length other.now }
        ensures { IsTrue result ↔ Divides self.now other.now }
    {
        is_within(self.word(), other.word()) && is_below(self.exponents(), other.exponents())
    }

    /// The quotient by `by`, which has the same variables and divides this monomial.
    pub fn quotient(&self, by: &Mono) -> Mono
        requires same_variables { length self.now ≡ length by.now }
        requires divides { Divides by.now self.now }
        ensures value { result ≡ minus self.now by.now }
        ensures product { plus result by.now ≡ self.now }
    {
        let n = self.variables();
        let all = differences(self.indices(), by.indices());
        let word = word_of(&all[..n]);
        Mono::known(
            *self.indices.allocator(),
            all,
            n,
            self.total - by.total,
            word,
        )
    }

    /// The least common multiple with `other`, which has the same variables.
    pub fn lcm(&self, other: &Mono) -> Mono
        requires { length self.now ≡ length other.now }
        ensures { result ≡ join self.now other.now }
    {
        let n = self.variables();
        let all = maxima(self.indices(), other.indices());
        let total = total_of(&all[..n]);
        Mono::known(
            *self.indices.allocator(),
            all,
            n,
            total,
            self.word | other.word,
        )
    }

    /// Whether `other`, which has the same variables, is the same monomial.
    pub fn is_same(&self, other: &Mono) -> bool
        requires { length self.now ≡ length other.now }
        ensures { IsTrue result ↔ (self.now ≡ other.now) }
    {
        if self.word() != other.word() {
            return false;
        }
        are_same(self.indices(), other.indices())
    }

    /// The comparison by lex: the first exponent that differs decides. Where the words do, no exponent is looked at.
    pub(crate) fn compare_by_lex(&self, other: &Mono) -> Ordering
        ensures { result ≡ lex self.now other.now }
    {
        let x = self.word();
        let y = other.word();
        if words_decide(x, y) {
            x.cmp(&y)
        } else {
            lex_order(self.exponents(), other.exponents())
        }
    }

    /// The comparison by deglex: the total degree first, then the first exponent that differs.
    pub fn compare(&self, other: &Mono) -> Ordering
        ensures { result ≡ deglex self.now other.now }
    {
        match self.total.cmp(&other.total) {
            Ordering::Equal => self.compare_by_lex(other),
            unequal => unequal,
        }
    }
}
