//! The members of a run. Once their coefficients are long, whole multiples of them stand beside them, by which reductions form no fractions.

ghost use Rattle.std.specs.Prelude.{◌≡◌, ◌<◌, ◌++◌, ◌∷◌, [], length, slice_index_or, IfOk, IfSome, OnOk};

use gf_poly::Marked;
use gf_whole_division::{Beyond, Ranking, WholeMember};
use std::alloc::{AllocError, Global};
use std::marker::Model;

/// The greatest numerator or denominator, by size, of a coefficient that isn't long.
const SHORT: u128 = 1 << 10;

/// Whole multiples of members, and the order of terms by which they reduce.
#[derive(Drop)]
pub struct Multiples {
    pub members: Vec<WholeMember>,
    pub ranking: Ranking,
}

impl Multiples {
    /// With that of one member more behind them. `Beyond` where a number leaves its range, or if memory runs out.
    fn with(self, alloc: Global, member: &Marked) -> Result<Multiples, Beyond>
        ensures { IfOk result (λ m. m.members.items ≡ self.members.items ++ member.now ∷ []) }
    {
        let Multiples {
            mut members,
            ranking,
        } = self;
        let more = WholeMember::new(alloc, member, &ranking)?;
        members.push(more)?;
        Ok(Multiples { members, ranking })
    }
}

/// Those of these members. `Beyond` where a number leaves its range, or if memory runs out.
fn multiples_of(alloc: Global, marked: &[Marked], ranking: Ranking) -> Result<Multiples, Beyond>
    ensures { IfOk result (λ m. m.members.items ≡ marked.now) }
{
    let mut members = Vec::with_capacity(alloc, marked.len())?;
    'members: for i in 0..marked.len() {
        let member = WholeMember::new(alloc, &marked[i], &ranking)?;
        members.push(member)?;
    }
    Ok(Multiples { members, ranking })
}

/// Whether a coefficient is long.
fn is_long(member: &Marked) -> bool {
    'terms: for t in member.poly().terms() {
        if t.coef.numer().unsigned_abs() > SHORT || t.coef.denom().unsigned_abs() > SHORT {
            return true;
        }
    }
    false
}

/// Whether no coefficient of these members is long.
pub fn are_short(members: &[Marked]) -> bool {
    'members: for member in members {
        if is_long(member) {
            return false;
        }
    }
    true
}

/// Marked polynomials in a row, and whole multiples of them, where there are some.
#[derive(Drop)]
pub struct Members {
    marked: Vec<Marked>,
    multiples: Option<Multiples>,
    ranking: Option<Ranking>,
}

impl Model for Members {
    ghost use Rattle.std.specs.Prelude.{◌≡◌, IfSome};
    ghost use Rattle.gf_buchberger.specs.Members.{MemberList};

    ghost Value = { MemberList };

    ghost view = { λ m. record { items = m.marked.items } };

    ghost invariant = { λ m. IfSome m.multiples (λ w. w.members.items ≡ m.marked.items) };
}

impl Members {
    /// No members. Whole multiples are formed where there is an order of terms to reduce by them, once a coefficient is long.
    pub fn new(alloc: Global, ranking: Option<Ranking>) -> Members
        ensures { result.items ≡ [] }
    {
        Members {
            marked: Vec::new(alloc),
            multiples: None,
            ranking,
        }
    }

    /// Whether whole multiples were formed, or tried, or there is no order of terms to reduce by them.
    pub fn have_begun(&self) -> bool {
        self.ranking.is_none()
    }

    /// The members.
    pub fn marked(&self) -> &[Marked]
        ensures { result.now ≡ self.now.items }
    {
        &self.marked
    }

    /// The member at an index.
    pub fn at(&self, i: usize) -> &Marked
        requires { i < length self.now.items }
        ensures { result.now ≡ slice_index_or self.now.items i result.now }
    {
        &self.marked[i]
    }

    /// The whole multiples of the members, if there are some.
    pub fn multiples(&self) -> Option<&Multiples>
        ensures { IfSome result (λ m. m.now.members.items ≡ self.now.items) }
    {
        match &self.multiples {
            Some(multiples) => Some(multiples),
            None => None,
        }
    }

    /// The members alone.
    pub fn into_marked(self) -> Vec<Marked>
        ensures { result.items ≡ self.items }
    {
        let Members { marked, .. } = self;
        marked
    }

    /// Forms the whole multiples of the members, if a coefficient is long, and they weren't tried before.
    fn begin(&mut self, alloc: Global, is_long: bool)
        ensures { self.new ≡ self.old }
    {
        if !is_long {
            return;
        }
        let Some(ranking) = self.ranking.take() else {
            return;
        };
        match multiples_of(alloc, &self.marked, ranking) {
            Ok(multiples) => self.multiples = Some(multiples),
            Err(_) => self.multiples = None,
        }
    }

    /// Adds a member, and its whole multiple to those of the others.
    ///
    /// # Errors
    ///
    /// `AllocError` if memory runs out.
    fn push_both(
        &mut self,
        alloc: Global,
        multiples: Multiples,
        member: Marked,
    ) -> Result<(), AllocError>
        requires { multiples.members.items ≡ self.old.items }
        ensures { OnOk result (self.new.items ≡ self.old.items ++ member ∷ []) }
    {
        let more = multiples.with(alloc, &member);
        self.multiples = None;
        self.marked.push(member)?;
        match more {
            Ok(multiples) => self.multiples = Some(multiples),
            Err(_) => self.multiples = None,
        }
        Ok(())
    }

    /// Adds a member, and its whole multiple, if there are some of the others or one of its coefficients is long.
    ///
    /// # Errors
    ///
    /// `AllocError` if memory runs out.
    pub fn push(&mut self, alloc: Global, member: Marked) -> Result<(), AllocError>
        ensures { OnOk result (self.new.items ≡ self.old.items ++ member ∷ []) }
    {
        match self.multiples.take() {
            Some(multiples) => self.push_both(alloc, multiples, member),
            None => {
                let is_long = is_long(&member);
                self.marked.push(member)?;
                self.begin(alloc, is_long);
                Ok(())
            }
        }
    }
}
