//! A refusal on its way to the end of a run.
ghost use Rattle.std.specs.Prelude.{◌≡◌, Some};
ghost use Rattle.gf_front.specs.Lines.{line};
ghost use Rattle.gfan_common.specs.Causes.{of_basis, of_tree, of_weight_error, of_gordan};
ghost use Rattle.gfan_common.specs.CheckedSets.{of_check};
ghost use Rattle.gfan_common.specs.Refused.{names_of, IsNamedBy, WrittenAsFar};

use gf_buchberger::BasisError;
use gf_flip::TreeError;
use gf_front::{Refusal, WordsError};
use gf_gordan::GordanError;
use gf_outside::Sink;
use gf_reduced::CheckError;
use gf_text::{Ring, Syntax, TextError};
use gf_weights::WeightError;
use std::alloc::AllocError;

/// A refusal, with the ring whose names its message uses if it has monomials.
#[derive(Drop)]
pub struct Refused {
    pub refusal: Refusal,
    pub ring: Option<Ring>,
}

/// The refusal of a marked set, as one of the run.
pub fn of_check(error: CheckError) -> Refusal
    ensures { result ≡ of_check error }
{
    match error {
        CheckError::Overflow(o) => Refusal::Overflow(o),
        CheckError::Exponent(o) => Refusal::ExponentOverflow(o),
        CheckError::NotReduced {
            set,
            polynomial,
            term,
        } => Refusal::NotReduced {
            set,
            polynomial,
            term,
        },
        CheckError::NotBasis {
            set,
            first,
            second,
            remainder,
        } => Refusal::NotBasis {
            set,
            first,
            second,
            remainder,
        },
        CheckError::Inconsistent { set, multipliers } => {
            Refusal::Inconsistent { set, multipliers }
        }
        CheckError::Cone(o) => Refusal::ConeOverflow {
            row: o.row,
            op: o.op,
            left: o.left,
            right: o.right,
        },
        CheckError::Memory => Refusal::Memory,
    }
}

/// The refusal of the computation of a weight or of witnesses, as one of the run.
pub fn of_weight_error(error: WeightError) -> Refusal
    ensures { result ≡ of_weight_error error }
{
    match error {
        WeightError::Cone(o) => Refusal::ConeOverflow {
            row: o.row,
            op: o.op,
            left: o.left,
            right: o.right,
        },
        WeightError::Wide(wide) => Refusal::WideVector(wide),
        WeightError::Memory => Refusal::Memory,
    }
}

/// The refusal of an elimination, or of finding rays, as one of the run.
pub fn of_gordan(error: GordanError) -> Refusal
    ensures { result ≡ of_gordan error }
{
    match error {
        GordanError::Cone(o) => Refusal::ConeOverflow {
            row: o.row,
            op: o.op,
            left: o.left,
            right: o.right,
        },
        GordanError::Memory => Refusal::Memory,
    }
}

/// The refusal of the computation of a basis, as one of the run.
pub fn of_basis(error: BasisError) -> Refusal
    ensures { result ≡ of_basis error }
{
    match error {
        BasisError::Overflow(o) => Refusal::Overflow(o),
        BasisError::Exponent(o) => Refusal::ExponentOverflow(o),
        BasisError::PairBudget { basis, unsettled } => Refusal::PairBudget { basis, unsettled },
        BasisError::Memory => Refusal::Memory,
    }
}

/// The refusal of a search over bases, as one of the run.
pub fn of_tree(error: TreeError) -> Refusal
    ensures { result ≡ of_tree error }
{
    match error {
        TreeError::Overflow(o) => Refusal::Overflow(o),
        TreeError::Exponent(o) => Refusal::ExponentOverflow(o),
        TreeError::PairBudget { basis, unsettled } => Refusal::PairBudget { basis, unsettled },
        TreeError::Cone(o) => Refusal::ConeOverflow {
            row: o.row,
            op: o.op,
            left: o.left,
            right: o.right,
        },
        TreeError::Memory => Refusal::Memory,
    }
}

impl Refused {
    /// The refusal of a marked set of this ring, with the ring.
    pub fn of_check(error: CheckError, ring: Ring) -> Refused
        ensures refusal { result.refusal ≡ of_check error }
        ensures ring { result.ring ≡ Some ring }
    {
        Refused {
            refusal: of_check(error),
            ring: Some(ring),
        }
    }

    /// Writes the message of the refusal in a line, as far as the sink takes it. It allocates no memory.
    pub fn tell<E: Sink>(&self, faults: &mut E)
        requires { IsNamedBy self.now.ring self.now.refusal }
        ensures { WrittenAsFar (E.held faults.old) (E.held faults.new) (E.faults faults.old)
            (E.faults faults.new) (line (names_of self.now.ring) self.now.refusal) }
    {
        let _ = self.refusal.tell(self.ring.as_ref(), faults);
    }
}

impl From<Refusal> for Refused {
    ghost use Rattle.gfan_common.specs.Refused.{without_names};

    ghost from_gives = { λ r e. e ≡ without_names r };

    fn from(refusal: Refusal) -> Refused {
        Refused {
            refusal,
            ring: None,
        }
    }
}

impl From<AllocError> for Refused {
    ghost use Rattle.gf_front.specs.declared.refusal.Refusal.TheVariants as refusals;
    ghost use Rattle.gfan_common.specs.Refused.{without_names};

    ghost from_gives = { λ _ e. e ≡ without_names refusals.Memory };

    fn from(_: AllocError) -> Refused {
        Refused::from(Refusal::Memory)
    }
}

impl From<WordsError> for Refused {
    ghost use Rattle.gf_front.specs.Lines.{of_words};
    ghost use Rattle.gfan_common.specs.Refused.{without_names};

    ghost from_gives = { λ w e. e ≡ without_names (of_words w) };

    fn from(error: WordsError) -> Refused {
        Refused::from(Refusal::from(error))
    }
}

impl From<Syntax> for Refused {
    ghost use Rattle.gf_front.specs.declared.refusal.Refusal.TheVariants as refusals;
    ghost use Rattle.gfan_common.specs.Refused.{without_names};

    ghost from_gives = { λ s e. e ≡ without_names (refusals.Syntax s) };

    fn from(syntax: Syntax) -> Refused {
        Refused::from(Refusal::Syntax(syntax))
    }
}

impl From<TextError> for Refused {
    ghost use Rattle.gf_items.specs.Refusals.{of_text};
    ghost use Rattle.gfan_common.specs.Refused.{without_names};

    ghost from_gives = { λ t e. e ≡ without_names (of_text t) };

    fn from(error: TextError) -> Refused {
        Refused::from(match error {
            TextError::Overflow(o) => Refusal::Overflow(o),
            TextError::Exponent(o) => Refusal::ExponentOverflow(o),
            TextError::Syntax(s) => Refusal::Syntax(s),
            TextError::TooWide { at } => Refusal::TooWide { at },
            TextError::UnknownName { at } => Refusal::UnknownName { at },
            TextError::TooManyVariables { count } => Refusal::TooManyVariables { count },
            TextError::ZeroPolynomial { set, index } => Refusal::ZeroPolynomial { set, index },
            TextError::Memory => Refusal::Memory,
        })
    }
}

impl From<GordanError> for Refused {
    ghost use Rattle.gfan_common.specs.Causes.{of_gordan};
    ghost use Rattle.gfan_common.specs.Refused.{without_names};

    ghost from_gives = { λ g e. e ≡ without_names (of_gordan g) };

    fn from(error: GordanError) -> Refused {
        Refused::from(of_gordan(error))
    }
}

impl From<BasisError> for Refused {
    ghost use Rattle.gfan_common.specs.Causes.{of_basis};
    ghost use Rattle.gfan_common.specs.Refused.{without_names};

    ghost from_gives = { λ b e. e ≡ without_names (of_basis b) };

    fn from(error: BasisError) -> Refused {
        Refused::from(of_basis(error))
    }
}

impl From<TreeError> for Refused {
    ghost use Rattle.gfan_common.specs.Refused.{without_names};

    ghost from_gives = { λ t e. e ≡ without_names (of_tree t) };

    fn from(error: TreeError) -> Refused {
        Refused::from(of_tree(error))
    }
}
