//! Whether a flip may cross the facet of a normal: by what is known, by guesses that are judged, and by its system.
ghost use Rattle.std.specs.Prelude.{◌≡◌, ◌↔◌, ◌<◌, ◌≤◌, [], ◌∷◌, length, IsTrue, IfOk, IfErr, IfSome, IsNone};
ghost use Rattle.gf_gordan.specs.Alternative.{IsSolution};
ghost use Rattle.gf_gordan.specs.Steps.{Failed};
ghost use Rattle.gf_gordan.specs.Sizes.{HaveEntriesUpTo};
ghost use Rattle.gf_gordan.specs.declared.error.GordanError.TheVariants.{Memory};
ghost use Rattle.gf_cone.specs.Cones.{all_rows, normal_at, other_rows};
ghost use Rattle.gf_cone.specs.Answers.{IsNormalStep};
ghost use Rattle.gf_cone.specs.Crossing.{IsCrossable, IsFlipDecided, IsCrossingDecided};
ghost use Rattle.gf_known_cone.specs.Remembered.{IsRemembered};

use crate::aims::aimed;
use crate::known::{Known, KnownCone};
use crate::planar::{Guess, guessed};
use crate::shots::{Hit, first_hit, point_hit};
use crate::sums::two_indices;
use gf_cone::checks::{is_above_zero, is_sum_of};
use gf_cone::spans::is_spanned;
use gf_gordan::GordanError;
use gf_vec::IntVec;

impl KnownCone {
    /// Whether the normal at an index is seen to be a sum of unit vectors, or of two other vectors.
    fn is_sum(&self, index: usize) -> bool
        requires { index < length self.now.normals }
        ensures { IsTrue result → IsCrossable self.now index → ⊥ }
    {
        if is_above_zero(&self.cone, index) {
            return true;
        }
        match two_indices(&self.hints.keys, index) {
            Some((b, c)) => is_sum_of(&self.cone, index, b, c),
            None => false,
        }
    }

    /// Remembers that no flip crosses the facet of a normal that is seen to be a sum.
    pub(crate) fn look_for_sum(&mut self, index: usize)
        requires { index < length self.old.normals }
        ensures { self.new ≡ self.old }
    {
        if self.is_sum(index) {
            self.set(index, Known::No);
        }
    }

    /// What a shot against the normal at an index hits first, and alone.
    fn hit_against(&self, index: usize) -> Option<Hit> {
        let normals = self.normals();
        if index >= normals.len() {
            return None;
        }
        let hit = first_hit(
            &self.cone,
            self.hints.values.as_slice(),
            normals[index].as_slice(),
        )?;
        if hit.tied.is_some() { None } else { Some(hit) }
    }

    /// The point that a shot against the normal at an index hits.
    fn point_against(&self, index: usize, hit: &Hit) -> Option<IntVec> {
        let inner = self.hints.inner.as_ref()?;
        let normal = self.normals().get(index)?;
        match point_hit(self.alloc, hit, inner.as_slice(), normal.as_slice()) {
            Ok(point) => point,
            Err(_error) => None,
        }
    }

    /// Shoots against the normal at an index, and remembers the point for the normal that is hit, unless that is known; its index, if it is one.
    pub(crate) fn shoot(&mut self, index: usize) -> Option<usize>
        ensures same { self.new ≡ self.old }
        ensures inside { IfSome result (λ hit. hit < length self.old.normals) }
    {
        let hit = self.hit_against(index)?;
        if hit.index >= self.normals().len() {
            return None;
        }
        if let None = self.told(hit.index)
            && let Some(point) = self.point_against(index, &hit)
        {
            self.learn(hit.index, point);
        }
        Some(hit.index)
    }

    /// Settles the normal at an index by its system.
    ///
    /// # Errors
    /// A step of the system that leaves the range; want of memory.
    fn settle(&mut self, index: usize) -> Result<bool, GordanError>
        requires { index < length self.old.normals }
        ensures same { self.new ≡ self.old }
        ensures ok { IfOk result (λ r. IsTrue r ↔ IsCrossable self.old index) }
        ensures err { IfErr result (Failed (IsNormalStep self.old.variables (other_rows self.old index) (normal_at self.old index))) }
        // no step leaves the range with three variables and entries up to 500
        ensures three_columns { self.old.variables ≤ 3 → HaveEntriesUpTo 500 (all_rows self.old) → IfErr result (λ e. e ≡ Memory) }
    {
        match self.cone.crossing(index)? {
            Some(witness) => {
                self.set(index, Known::Yes(witness));
                Ok(true)
            }
            None => {
                self.set(index, Known::No);
                Ok(false)
            }
        }
    }

    /// What is seen in the plane modulo the normal at an index, in three variables.
    fn seen(&self, index: usize) -> Known
        requires { index < length self.now.normals }
        ensures { IsRemembered self.now index result }
    {
        match guessed(self.alloc, &self.cone, index) {
            Some(Guess::Point(point)) if self.is_shown_by(index, &point) => Known::Yes(point),
            Some(Guess::Spanned(span)) if is_spanned(&self.cone, index, &span) => Known::No,
            _ => Known::Open,
        }
    }

    /// Remembers what is seen in the plane modulo the normal at an index.
    fn look(&mut self, index: usize)
        requires { index < length self.old.normals }
        ensures { self.new ≡ self.old }
    {
        let known = self.seen(index);
        self.set(index, known);
    }

    /// What `is_flippable` answers.
    ///
    /// # Errors
    /// A step of the system that leaves the range; want of memory.
    pub(crate) fn decided(&mut self, index: usize) -> Result<bool, GordanError>
        requires { index < length self.old.normals }
        ensures same { self.new ≡ self.old }
        ensures ok { IfOk result (λ r. IsTrue r ↔ IsCrossable self.old index) }
        ensures err { IfErr result (Failed (IsNormalStep self.old.variables (other_rows self.old index) (normal_at self.old index))) }
        // no step leaves the range with three variables and entries up to 500
        ensures three_columns { self.old.variables ≤ 3 → HaveEntriesUpTo 500 (all_rows self.old) → IfErr result (λ e. e ≡ Memory) }
    {
        if let Some(known) = self.told(index) {
            return Ok(known);
        }
        self.look_for_sum(index);
        if let Some(known) = self.told(index) {
            return Ok(known);
        }
        self.look(index);
        if let Some(known) = self.told(index) {
            return Ok(known);
        }
        let _hit = self.shoot(index);
        if let Some(known) = self.told(index) {
            return Ok(known);
        }
        if let Some(witness) = self.point_of_shot(index) {
            self.set(index, Known::Yes(witness));
            return Ok(true);
        }
        self.settle(index)
    }

    /// Whether a flip may cross the facet of the normal at an index, counted from 0.
    ///
    /// What is known is told; else sums of two, shots and the system itself decide, in this order.
    ///
    /// # Errors
    /// `Cone` names a step of the system of the other normals and the unit vectors, with this normal as the equation, that
    /// leaves the range; `Memory` may come at any time.
    pub fn is_flippable(&mut self, index: usize) -> Result<bool, GordanError>
        requires { index < length self.old.normals }
        ensures same { self.new ≡ self.old }
        ensures ok { IfOk result (λ r. IsTrue r ↔ IsCrossable self.old index) }
        ensures told { IfOk result (IsFlipDecided self.old index) }
        ensures err { IfErr result (Failed (IsNormalStep self.old.variables (other_rows self.old index) (normal_at self.old index))) }
        // no step leaves the range with three variables and entries up to 500
        ensures three_columns { self.old.variables ≤ 3 → HaveEntriesUpTo 500 (all_rows self.old) → IfErr result (λ e. e ≡ Memory) }
    {
        self.decided(index)
    }

    /// The point of one of a few shots aimed at the normal at an index.
    fn aim(&self, index: usize) -> Option<IntVec> {
        let Some(inner) = &self.hints.inner else {
            return None;
        };
        match aimed(
            self.alloc,
            &self.cone,
            self.hints.values.as_slice(),
            inner.as_slice(),
            index,
        ) {
            Ok(point) => point,
            Err(_error) => None,
        }
    }

    /// The point of a shot aimed at the normal at an index, where it is seen to show that a flip may cross its facet.
    fn point_of_shot(&self, index: usize) -> Option<IntVec>
        requires { index < length self.now.normals }
        ensures { IfSome result (IsSolution self.now.variables (other_rows self.now index) (normal_at self.now index ∷ [])) }
    {
        let point = self.aim(index)?;
        if self.is_shown_by(index, &point) {
            Some(point)
        } else {
            None
        }
    }

    /// What `crossing` answers where nothing is known: sums of two, a few shots and the system itself decide, in this order.
    ///
    /// # Errors
    /// A step of the system that leaves the range; want of memory.
    fn sought(&self, index: usize) -> Result<Option<IntVec>, GordanError>
        requires { index < length self.now.normals }
        ensures yes { IfOk result (λ o. IfSome o (IsSolution self.now.variables (other_rows self.now index) (normal_at self.now index ∷ []))) }
        ensures no { IfOk result (λ o. IsNone o → IsCrossable self.now index → ⊥) }
        ensures err { IfErr result (Failed (IsNormalStep self.now.variables (other_rows self.now index) (normal_at self.now index))) }
        // no step leaves the range with three variables and entries up to 500
        ensures three_columns { self.now.variables ≤ 3 → HaveEntriesUpTo 500 (all_rows self.now) → IfErr result (λ e. e ≡ Memory) }
    {
        if self.is_sum(index) {
            return Ok(None);
        }
        match self.seen(index) {
            Known::Yes(point) => return Ok(Some(point)),
            Known::No => return Ok(None),
            Known::Open => {}
        }
        match self.point_of_shot(index) {
            Some(point) => Ok(Some(point)),
            None => self.cone.crossing(index),
        }
    }

    /// What `crossing` answers.
    ///
    /// # Errors
    /// A step of the system that leaves the range; want of memory.
    pub(crate) fn found(&self, index: usize) -> Result<Option<IntVec>, GordanError>
        requires { index < length self.now.normals }
        ensures yes { IfOk result (λ o. IfSome o (IsSolution self.now.variables (other_rows self.now index) (normal_at self.now index ∷ []))) }
        ensures no { IfOk result (λ o. IsNone o → IsCrossable self.now index → ⊥) }
        ensures err { IfErr result (Failed (IsNormalStep self.now.variables (other_rows self.now index) (normal_at self.now index))) }
        // no step leaves the range with three variables and entries up to 500
        ensures three_columns { self.now.variables ≤ 3 → HaveEntriesUpTo 500 (all_rows self.now) → IfErr result (λ e. e ≡ Memory) }
    {
        match &self.known[index] {
            Known::Open => self.sought(index),
            Known::Yes(witness) => {
                let again = witness.copy()?;
                Ok(Some(again))
            }
            Known::No => Ok(None),
        }
    }

    /// A vector that shows that a flip may cross the facet of the normal at an index, counted from 0: it is positive, zero on
    /// the normal, and positive on all other normals. None where no flip may cross it.
    ///
    /// What is known is told; else sums of two, a few shots and the system itself decide, in this order. Nothing is learned.
    ///
    /// # Errors
    /// What `is_flippable` refuses at this index.
    pub fn crossing(&self, index: usize) -> Result<Option<IntVec>, GordanError>
        requires { index < length self.now.normals }
        ensures witness { IfOk result (λ o. IfSome o (IsSolution self.now.variables (other_rows self.now index) (normal_at self.now index ∷ []))) }
        ensures told { IfOk result (IsCrossingDecided self.now index) }
        ensures err { IfErr result (Failed (IsNormalStep self.now.variables (other_rows self.now index) (normal_at self.now index))) }
        // no step leaves the range with three variables and entries up to 500
        ensures three_columns { self.now.variables ≤ 3 → HaveEntriesUpTo 500 (all_rows self.now) → IfErr result (λ e. e ≡ Memory) }
    {
        self.found(index)
    }
}
