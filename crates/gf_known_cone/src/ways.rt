//! The way up: the least normal of a cone that a flip may cross and that is negative at the root of a region.
ghost use Rattle.std.specs.Prelude.{◌≡◌, ◌↔◌, ◌+◌, ◌<◌, ◌≤◌, [], ◌∷◌, length, IsTrue, IfOk, IfErr, IfSome, IsNone};
ghost use Rattle.gf_gordan.specs.Alternative.{IsSolution};
ghost use Rattle.gf_gordan.specs.Steps.{Failed};
ghost use Rattle.gf_gordan.specs.Sizes.{HaveEntriesUpTo};
ghost use Rattle.gf_gordan.specs.declared.error.GordanError.TheVariants.{Memory};
ghost use Rattle.gf_cone.specs.LexPositive.{IsNegative};
ghost use Rattle.gf_cone.specs.Cones.{all_rows, normal_at, other_rows};
ghost use Rattle.gf_cone.specs.Answers.{IsNormalStep};
ghost use Rattle.gf_known_cone.specs.Ways.{LeadsUpAt, IsLeastUp, IsWayFrom, IsWayShown, SomeUpBefore, IsStepBefore};

use crate::known::KnownCone;
use gf_cone::Region;
use gf_gordan::GordanError;
use gf_vec::IntVec;
use std::cmp::Ordering;

/// The index of a normal, and a positive vector that is zero on it and positive on all other normals.
#[derive(Drop)]
pub struct Way {
    pub index: usize,
    pub witness: IntVec,
}

impl KnownCone {
    /// Whether the normal at an index is negative at the root of a region.
    fn is_negative(&self, index: usize, region: &Region) -> bool
        requires index { index < length self.now.normals }
        requires width { length region.now.root ≡ self.now.variables }
        ensures { IsTrue result ↔ IsNegative region.now.root (normal_at self.now index) }
    {
        matches!(region.sign(&self.normals()[index]), Ordering::Less)
    }

    /// Whether the normal at an index is negative at the root, and a flip may cross its facet.
    ///
    /// # Errors
    /// What `is_flippable` refuses at this index.
    fn leads_up(&mut self, index: usize, region: &Region) -> Result<bool, GordanError>
        requires index { index < length self.old.normals }
        requires width { length region.now.root ≡ self.old.variables }
        ensures same { self.new ≡ self.old }
        ensures ok { IfOk result (λ r. IsTrue r ↔ LeadsUpAt region.now.root self.old index) }
        ensures err { IfErr result (Failed (IsNormalStep self.old.variables (other_rows self.old index) (normal_at self.old index))) }
        // no step leaves the range with three variables and entries up to 500
        ensures three_columns { self.old.variables ≤ 3 → HaveEntriesUpTo 500 (all_rows self.old) → IfErr result (λ e. e ≡ Memory) }
    {
        if self.is_negative(index, region) {
            self.decided(index)
        } else {
            Ok(false)
        }
    }

    /// Whether the normal at an index is known to lead up.
    fn is_known_to_lead_up(&self, index: usize, region: &Region) -> bool
        requires index { index < length self.now.normals }
        requires width { length region.now.root ≡ self.now.variables }
        ensures { IsTrue result → LeadsUpAt region.now.root self.now index }
    {
        if let Some(true) = self.told(index) {
            self.is_negative(index, region)
        } else {
            false
        }
    }

    /// Whether nothing is known of the normal at an index, and it is negative at the root.
    fn is_candidate(&self, index: usize, region: &Region) -> bool
        requires index { index < length self.now.normals }
        requires width { length region.now.root ≡ self.now.variables }
    {
        if let None = self.told(index) {
            self.is_negative(index, region)
        } else {
            false
        }
    }

    /// Looks for a normal before an index that leads up by what is known, and by sums of two for all of them.
    fn sum_before(&mut self, end: usize, region: &Region) -> bool
        requires end { end ≤ length self.old.normals }
        requires width { length region.now.root ≡ self.old.variables }
        ensures same { self.new ≡ self.old }
        ensures found { IsTrue result → SomeUpBefore region.now.root self.old end }
    {
        for index in 0..end {
            if self.is_known_to_lead_up(index, region) {
                return true;
            }
            if self.is_candidate(index, region) {
                self.look_for_sum(index);
            }
        }
        false
    }

    /// Looks for a normal before an index that leads up by shots against those of which nothing is known.
    fn shots_before(&mut self, end: usize, region: &Region) -> bool
        requires end { end ≤ length self.old.normals }
        requires width { length region.now.root ≡ self.old.variables }
        ensures same { self.new ≡ self.old }
        ensures found { IsTrue result → SomeUpBefore region.now.root self.old end }
    {
        if self.variables() == 3 {
            return false;
        }
        for index in 0..end {
            if self.is_candidate(index, region) {
                match self.shoot(index) {
                    Some(hit) => {
                        if hit < end && self.is_known_to_lead_up(hit, region) {
                            return true;
                        }
                    }
                    None => {}
                }
            }
        }
        false
    }

    /// Whether some normal before an index leads up: a flip may cross its facet, and it is negative at the root of the region.
    ///
    /// It ends at the first such normal that is found: by what is known, by sums of two and shots for all of them, and only
    /// then by their systems.
    ///
    /// # Errors
    /// `Cone` names a step of the system of one of these normals that leaves the range; `Memory` may come at any time.
    pub fn some_leads_up_before(&mut self, end: usize, region: &Region) -> Result<bool, GordanError>
        requires end { end ≤ length self.old.normals }
        requires width { length region.now.root ≡ self.old.variables }
        ensures same { self.new ≡ self.old }
        ensures ok { IfOk result (λ r. IsTrue r ↔ SomeUpBefore region.now.root self.old end) }
        ensures err { IfErr result (Failed (IsStepBefore self.old end)) }
        // no step leaves the range with three variables and entries up to 500
        ensures three_columns { self.old.variables ≤ 3 → HaveEntriesUpTo 500 (all_rows self.old) → IfErr result (λ e. e ≡ Memory) }
    {
        if self.sum_before(end, region) {
            return Ok(true);
        }
        if self.shots_before(end, region) {
            return Ok(true);
        }
        for index in 0..end {
            if self.leads_up(index, region)? {
                return Ok(true);
            }
        }
        Ok(false)
    }

    /// The index of the least normal that leads up: a flip may cross its facet, and it is negative at the root of the region.
    ///
    /// # Errors
    /// `Cone` names a step of the system of one of the normals that leaves the range; `Memory` may come at any time.
    pub fn way_up(&mut self, region: &Region) -> Result<Option<usize>, GordanError>
        requires { length region.now.root ≡ self.old.variables }
        ensures same { self.new ≡ self.old }
        ensures ok { IfOk result (IsWayFrom region.now.root self.old) }
        ensures err { IfErr result (Failed (IsStepBefore self.old (length self.old.normals))) }
        // no step leaves the range with three variables and entries up to 500
        ensures three_columns { self.old.variables ≤ 3 → HaveEntriesUpTo 500 (all_rows self.old) → IfErr result (λ e. e ≡ Memory) }
    {
        for index in 0..self.normals().len() {
            if self.leads_up(index, region)? {
                return Ok(Some(index));
            }
        }
        Ok(None)
    }

    /// Whether the normal at an index is the least that leads up.
    ///
    /// # Errors
    /// `Cone` names a step of the system of this normal or of one before it that leaves the range; `Memory` may come at any
    /// time.
    pub fn is_way_up(&mut self, index: usize, region: &Region) -> Result<bool, GordanError>
        requires index { index < length self.old.normals }
        requires width { length region.now.root ≡ self.old.variables }
        ensures same { self.new ≡ self.old }
        ensures ok { IfOk result (λ r. IsTrue r ↔ IsLeastUp region.now.root self.old index) }
        ensures err { IfErr result (Failed (IsStepBefore self.old (index + 1))) }
        // no step leaves the range with three variables and entries up to 500
        ensures three_columns { self.old.variables ≤ 3 → HaveEntriesUpTo 500 (all_rows self.old) → IfErr result (λ e. e ≡ Memory) }
    {
        if !self.leads_up(index, region)? {
            return Ok(false);
        }
        if self.some_leads_up_before(index, region)? {
            return Ok(false);
        }
        Ok(true)
    }

    /// What `crossing` answers where the normal at an index is negative at the root, else none.
    ///
    /// # Errors
    /// What `is_flippable` refuses at this index.
    fn upward(&self, index: usize, region: &Region) -> Result<Option<IntVec>, GordanError>
        requires index { index < length self.now.normals }
        requires width { length region.now.root ≡ self.now.variables }
        ensures leads { IfOk result (λ o. IfSome o (λ _. LeadsUpAt region.now.root self.now index)) }
        ensures yes { IfOk result (λ o. IfSome o (IsSolution self.now.variables (other_rows self.now index) (normal_at self.now index ∷ []))) }
        ensures no { IfOk result (λ o. IsNone o → LeadsUpAt region.now.root self.now index → ⊥) }
        ensures err { IfErr result (Failed (IsNormalStep self.now.variables (other_rows self.now index) (normal_at self.now index))) }
        // no step leaves the range with three variables and entries up to 500
        ensures three_columns { self.now.variables ≤ 3 → HaveEntriesUpTo 500 (all_rows self.now) → IfErr result (λ e. e ≡ Memory) }
    {
        if self.is_negative(index, region) {
            self.found(index)
        } else {
            Ok(None)
        }
    }

    /// The index of the least normal that leads up, as `way_up` tells it, and a vector that shows that a flip may cross its
    /// facet. Nothing is learned.
    ///
    /// # Errors
    /// What `way_up` refuses.
    pub fn way(&self, region: &Region) -> Result<Option<Way>, GordanError>
        requires { length region.now.root ≡ self.now.variables }
        ensures ok { IfOk result (IsWayShown region.now.root self.now) }
        ensures err { IfErr result (Failed (IsStepBefore self.now (length self.now.normals))) }
        // no step leaves the range with three variables and entries up to 500
        ensures three_columns { self.now.variables ≤ 3 → HaveEntriesUpTo 500 (all_rows self.now) → IfErr result (λ e. e ≡ Memory) }
    {
        for index in 0..self.normals().len() {
            if let Some(witness) = self.upward(index, region)? {
                return Ok(Some(Way { index, witness }));
            }
        }
        Ok(None)
    }
}
