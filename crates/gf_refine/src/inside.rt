//! Cones that lie inside another one, as products with their rays show.
ghost use Rattle.std.specs.Prelude.{◌≡◌, ◌≤ℤ◌, pos, ℕ, All, IsTrue, length};
ghost use Rattle.gf_vec.specs.Vector.{dot};
ghost use Rattle.gf_gordan.specs.Alternative.{AreRows};
ghost use Rattle.gf_rays.specs.Cones.{rows_of};
ghost use Rattle.gf_refine.specs.Inside.{LiesInside, AreUpOn, AreZeroOn};

use gf_rays::Rays;
use gf_vec::IntVec;

/// Whether a row is zero on a vector; a product that leaves the range counts as another number.
fn is_zero_at(h: &IntVec, x: &IntVec) -> bool
    requires { length h.now ≡ length x.now }
    ensures { IsTrue result → dot h.now x.now ≡ pos 0 }
{
    match h.dot(x) {
        Ok(z) => z == 0,
        Err(_) => false,
    }
}

/// Whether a row isn't negative on a vector; a product that leaves the range counts as a negative number.
fn is_up_at(h: &IntVec, x: &IntVec) -> bool
    requires { length h.now ≡ length x.now }
    ensures { IsTrue result → pos 0 ≤ℤ dot h.now x.now }
{
    match h.dot(x) {
        Ok(z) => z >= 0,
        Err(_) => false,
    }
}

/// Whether a row is zero on each of the vectors.
fn is_zero_on(h: &IntVec, xs: &[IntVec]) -> bool
    requires { AreRows (length h.now) xs.now }
    ensures { IsTrue result → All (λ x. dot h.now x ≡ pos 0) xs.now }
{
    for x in xs {
        if !is_zero_at(h, x) {
            return false;
        }
    }
    true
}

/// Whether a row is negative on none of the vectors.
fn is_up_on(h: &IntVec, xs: &[IntVec]) -> bool
    requires { AreRows (length h.now) xs.now }
    ensures { IsTrue result → All (λ x. pos 0 ≤ℤ dot h.now x) xs.now }
{
    for x in xs {
        if !is_up_at(h, x) {
            return false;
        }
    }
    true
}

/// Whether a row is negative on nothing that these rays and lineality vectors generate.
fn is_up(h: &IntVec, rays: &[IntVec], lineality: &[IntVec]) -> bool
    requires rays { AreRows (length h.now) rays.now }
    requires lineality { AreRows (length h.now) lineality.now }
    ensures { IsTrue result → All (λ x. pos 0 ≤ℤ dot h.now x) rays.now × All (λ x. dot h.now x ≡ pos 0) lineality.now }
{
    is_up_on(h, rays) && is_zero_on(h, lineality)
}

/// Whether a row is zero on all that these rays and lineality vectors generate.
fn is_zero(h: &IntVec, rays: &[IntVec], lineality: &[IntVec]) -> bool
    requires rays { AreRows (length h.now) rays.now }
    requires lineality { AreRows (length h.now) lineality.now }
    ensures { IsTrue result → All (λ x. dot h.now x ≡ pos 0) rays.now × All (λ x. dot h.now x ≡ pos 0) lineality.now }
{
    is_zero_on(h, rays) && is_zero_on(h, lineality)
}

/// Whether none of the rows is negative on what these rays and lineality vectors generate.
fn are_up(rows: &[IntVec], rays: &[IntVec], lineality: &[IntVec]) -> bool
    requires { (n : ℕ) × (AreRows n rows.now × AreRows n rays.now × AreRows n lineality.now) }
    ensures { IsTrue result → AreUpOn rows.now rays.now lineality.now }
{
    for h in rows {
        if !is_up(h, rays, lineality) {
            return false;
        }
    }
    true
}

/// Whether all of the rows are zero on what these rays and lineality vectors generate.
fn are_zero(rows: &[IntVec], rays: &[IntVec], lineality: &[IntVec]) -> bool
    requires { (n : ℕ) × (AreRows n rows.now × AreRows n rays.now × AreRows n lineality.now) }
    ensures { IsTrue result → AreZeroOn rows.now rays.now lineality.now }
{
    for h in rows {
        if !is_zero(h, rays, lineality) {
            return false;
        }
    }
    true
}

/// Whether the products of the rows of `d` with the rays and the lineality vectors of `c` show that `c` lies inside `d`.
pub(crate) fn lies_inside(c: &Rays, d: &Rays) -> bool
    requires { d.now.ambient ≡ c.now.ambient }
    ensures { IsTrue result → LiesInside c.now.ambient (rows_of c.now) (rows_of d.now) }
{
    let rays = c.rays();
    let lineality = c.lineality();
    are_up(d.inequalities(), rays, lineality) && are_zero(d.equations(), rays, lineality)
}
