//! The cone of a marked set.
ghost use Rattle.std.specs.Prelude.{◌≡◌, ◌<◌, ◌≤◌, ◌∷◌, [], ◌++◌, length, All, IfOk, IfErr, IfSome, IsNone, IsTrue};
ghost use Rattle.gf_gordan.specs.Alternative.{AreRows, IsSolution};
ghost use Rattle.gf_cone.specs.Crossing.{IsCrossable};
ghost use Rattle.gf_gordan.specs.Steps.{Failed};
ghost use Rattle.gf_gordan.specs.Sizes.{HaveEntriesUpTo};
ghost use Rattle.gf_gordan.specs.declared.error.GordanError.TheVariants.{Memory};
ghost use Rattle.gf_facets_theory.specs.Regions.{all_positive};
ghost use Rattle.gf_facets_theory.specs.Systems.{units};
ghost use Rattle.gf_facets_theory.specs.Normals.{others_of};
ghost use Rattle.gf_cone.specs.Small.{IsSmall};
ghost use Rattle.gf_cone.specs.Cones.{all_rows, normal_at, other_rows, IsConeOf, in_region, HasRowsOf, HasInterior, HasUnits};
ghost use Rattle.gf_cone.specs.Answers.{AnswersFacet, AnswersFlip, IsFacetAnswered, IsFlipToldIn, IsNormalStep};

use crate::SpareVectors;
use crate::answer::{FacetAnswer, FlipAnswer};
use crate::listing::normals;
use crate::marking::with_units;
use crate::region::Region;
use crate::systems::{others, solution_at, solved, with_copies};
use gf_gordan::GordanError;
use gf_poly::MarkedSet;
use gf_vec::IntVec;
use std::alloc::{AllocError, Global};
use std::cmp::Ordering;
use std::marker::Model;

/// The normals of a marked set; behind them the rows of a region. The unit vectors, which are rows too, aren't kept.
#[derive(Drop)]
pub struct Cone {
    variables: u32,
    vectors: Vec<IntVec>,
    count: usize,
}

impl Model for Cone {
    ghost use Rattle.std.specs.Prelude.{◌++◌, take, drop};
    ghost use Rattle.gf_facets_theory.specs.Systems.{units};
    ghost use Rattle.gf_cone.specs.Cones.{ConeRows};
    ghost use Rattle.gf_cone.specs.Keeping.{AreVectorsKept};

    ghost Value = { ConeRows };

    ghost view = { λ c. record {
      variables = c.variables;
      normals = take c.count c.vectors.items;
      beside = drop c.count c.vectors.items ++ units c.variables c.variables;
    } };

    ghost invariant = { λ c. AreVectorsKept c.variables c.vectors.items c.count };
}

/// The cone of a marked set, with rows behind its normals, which are in the memory of spare vectors.
///
/// # Errors
/// Want of memory.
fn made(
    alloc: Global,
    set: &MarkedSet,
    rows: &[IntVec],
    spare: &mut SpareVectors,
) -> Result<Cone, AllocError>
    requires { AreRows set.now.variables rows.now }
    ensures { IfOk result (IsConeOf set.now.variables (record { rows = rows.now; root = [] }) set.now.items) }
{
    let normals = normals(alloc, set, spare)?;
    let variables = set.variables();
    let count = normals.len();
    let vectors = with_copies(normals, rows)?;
    Ok(Cone {
        variables,
        vectors,
        count,
    })
}

impl Cone {
    /// The cone of a marked set, in the region of all positive vectors.
    ///
    /// # Errors
    /// Want of memory.
    pub fn of(alloc: Global, set: &MarkedSet) -> Result<Cone, AllocError>
        ensures { IfOk result (IsConeOf set.now.variables (all_positive set.now.variables) set.now.items) }
    {
        made(alloc, set, &[], &mut SpareVectors::new(alloc))
    }

    /// The cone of a marked set, in a region.
    ///
    /// # Errors
    /// Want of memory.
    pub fn within(alloc: Global, set: &MarkedSet, region: &Region) -> Result<Cone, AllocError>
        requires { length region.now.root ≡ set.now.variables }
        ensures { IfOk result (IsConeOf set.now.variables region.now set.now.items) }
    {
        Cone::within_over(alloc, set, region, &mut SpareVectors::new(alloc))
    }

    /// The cone of a marked set, in a region; its normals are in the memory of spare vectors, as far as there are some.
    ///
    /// # Errors
    /// Want of memory.
    pub fn within_over(
        alloc: Global,
        set: &MarkedSet,
        region: &Region,
        spare: &mut SpareVectors,
    ) -> Result<Cone, AllocError>
        requires { length region.now.root ≡ set.now.variables }
        ensures { IfOk result (IsConeOf set.now.variables region.now set.now.items) }
    {
        made(alloc, set, region.rows(), spare)
    }

    /// Leaves the memory of the normals.
    pub fn leave(self, spare: &mut SpareVectors) {
        'vectors: for vector in self.vectors {
            spare.keep(vector);
        }
    }

    /// The number of variables.
    pub fn variables(&self) -> u32
        ensures { result ≡ self.now.variables }
    {
        self.variables
    }

    /// The normals: primitive vectors, each once, ascending by the first entry that differs. Their entries are below 2^31
    /// in absolute value.
    pub fn normals(&self) -> &[IntVec]
        ensures value { result.now ≡ self.now.normals }
        ensures widths { AreRows self.now.variables result.now }
        ensures small { All IsSmall result.now }
    {
        &self.vectors.as_slice()[..self.count]
    }

    /// The normals, and then the rows of the region that the cone was made in.
    pub fn kept(&self) -> &[IntVec]
        ensures value { all_rows self.now ≡ result.now ++ units self.now.variables self.now.variables }
        ensures widths { AreRows self.now.variables result.now }
        ensures front { length self.now.normals ≤ length result.now }
        ensures units { HasUnits self.now }
    {
        self.vectors.as_slice()
    }

    /// Copies of the normals, and then of the rows beside them: those of the region, and the unit vectors.
    ///
    /// # Errors
    /// Want of memory.
    pub fn vectors(&self) -> Result<Vec<IntVec>, AllocError>
        ensures value { IfOk result (λ v. v.items ≡ all_rows self.now) }
        ensures widths { IfOk result (λ v. AreRows self.now.variables v.items) }
        ensures units { HasUnits self.now }
    {
        let alloc = *self.vectors.allocator();
        let list = with_copies(Vec::with_capacity(alloc, self.len())?, self.kept())?;
        with_units(alloc, list, self.variables as usize)
    }

    /// How many normals and rows beside them there are, the unit vectors among them.
    pub fn len(&self) -> usize {
        self.vectors.len().saturating_add(self.variables as usize)
    }

    /// The rows of the region that the cone was made in.
    pub fn rows(&self) -> &[IntVec]
        ensures value { self.now.beside ≡ result.now ++ units self.now.variables self.now.variables }
        ensures widths { AreRows self.now.variables result.now }
    {
        let (_, rows) = self.vectors.as_slice().split_at(self.count);
        rows
    }

    /// Whether the region that the cone was made in has the same rows as another one.
    pub fn is_within(&self, region: &Region) -> bool
        ensures { IsTrue result → HasRowsOf region.now self.now }
    {
        let own = self.rows();
        let rows = region.rows();
        if own.len() != rows.len() {
            return false;
        }
        'rows: for i in 0..rows.len() {
            match own[i].lex_cmp(&rows[i]) {
                Ordering::Equal => {}
                _ => return false,
            }
        }
        true
    }

    /// Whether the normal at an index, counted from 0, is one of a facet.
    ///
    /// The answer holds a vector that is zero on it and positive on all other normals, or so many times the normal as a
    /// combination of the other normals (Farkas' lemma; Schrijver, *Theory of Linear and Integer Programming*, 7.3).
    ///
    /// # Errors
    /// `Cone` names a step of the system of the other normals, with this one as the equation, that leaves the range;
    /// `Memory` may come at any time.
    pub fn facet(&self, index: usize) -> Result<FacetAnswer, GordanError>
        requires index { index < length self.now.normals }
        requires interior { HasInterior self.now }
        ensures ok { IfOk result (AnswersFacet self.now index) }
        ensures told { IfOk result (IsFacetAnswered self.now index) }
        ensures err { IfErr result (Failed (IsNormalStep self.now.variables (others_of index self.now.normals) (normal_at self.now index))) }
        // no step leaves the range with three variables and entries up to 500
        ensures three_columns { self.now.variables ≤ 3 → HaveEntriesUpTo 500 self.now.normals → IfErr result (λ e. e ≡ Memory) }
    {
        let normals = self.normals();
        let alloc = *self.vectors.allocator();
        let rows = others(alloc, normals, index)?;
        match solved(alloc, self.variables, rows.as_slice(), &normals[index])? {
            FlipAnswer::Yes { witness } => Ok(FacetAnswer::Facet { witness }),
            FlipAnswer::No { times, multipliers } => {
                Ok(FacetAnswer::Redundant { times, multipliers })
            }
        }
    }

    /// Whether a flip may cross the facet of the normal at an index, counted from 0, inside a region.
    ///
    /// The answer holds a vector of the region that is zero on it and positive on all other normals, or so many times the normal
    /// as a combination of the other normals, the rows of the region and the unit vectors. On some vector of the region all
    /// normals are positive.
    ///
    /// # Errors
    /// `Cone` names a step of the system of the other normals, the rows of the region and the unit vectors, with this normal as
    /// the equation, that leaves the range; `Memory` may come at any time.
    pub fn flippable(&self, index: usize, region: &Region) -> Result<FlipAnswer, GordanError>
        requires index { index < length self.now.normals }
        requires width { length region.now.root ≡ self.now.variables }
        requires interior { HasInterior (in_region region.now self.now) }
        ensures ok { IfOk result (AnswersFlip (in_region region.now self.now) index) }
        ensures told { IfOk result (IsFlipToldIn region.now self.now index) }
        ensures err { IfErr result (Failed (IsNormalStep self.now.variables (other_rows (in_region region.now self.now) index) (normal_at self.now index))) }
        // no step leaves the range with three variables and entries up to 500
        ensures three_columns { self.now.variables ≤ 3 → HaveEntriesUpTo 500 (all_rows (in_region region.now self.now)) → IfErr result (λ e. e ≡ Memory) }
    {
        let normals = self.normals();
        let alloc = *self.vectors.allocator();
        let list = others(alloc, normals, index)?;
        let more = with_copies(list, region.rows())?;
        let rows = with_units(alloc, more, self.variables as usize)?;
        solved(alloc, self.variables, rows.as_slice(), &normals[index])
    }

    /// A positive vector that is zero on the normal at an index and positive on all other normals, or none where there is none.
    ///
    /// # Errors
    /// `Cone` names a step of the system of the other normals and the unit vectors, with this normal as the equation, that
    /// leaves the range; `Memory` may come at any time.
    pub fn crossing(&self, index: usize) -> Result<Option<IntVec>, GordanError>
        requires { index < length self.now.normals }
        ensures yes { IfOk result (λ o. IfSome o (IsSolution self.now.variables (other_rows self.now index) (normal_at self.now index ∷ []))) }
        ensures no { IfOk result (λ o. IsNone o → IsCrossable self.now index → ⊥) }
        ensures err { IfErr result (Failed (IsNormalStep self.now.variables (other_rows self.now index) (normal_at self.now index))) }
        // no step leaves the range with three variables and entries up to 500
        ensures three_columns { self.now.variables ≤ 3 → HaveEntriesUpTo 500 (all_rows self.now) → IfErr result (λ e. e ≡ Memory) }
    {
        let kept = self.kept();
        let alloc = *self.vectors.allocator();
        let list = others(alloc, kept, index)?;
        let rows = with_units(alloc, list, self.variables as usize)?;
        solution_at(alloc, self.variables, rows.as_slice(), &kept[index])
    }
}
