//! Why there is no verdict.
ghost use Rattle.std.specs.Prelude.{◌≡◌};
ghost use Rattle.gf_tropical_basis_test.specs.declared.error.BasisTestError.TheVariants.{Prevariety, Root, Search, Initial, Memory};

use gf_buchberger::BasisError;
use gf_initial_monomials::InitialError;
use gf_tree::TreeError;
use gf_tropical::TropicalError;
use std::alloc::AllocError;

/// Why there is no verdict.
#[derive(Drop)]
pub enum BasisTestError {
    /// The fan of the prevariety isn't computed: a polynomial is zero, a number doesn't fit, or memory runs out.
    Prevariety(TropicalError),
    /// The first basis isn't computed: a number doesn't fit, the budget of pairs is spent, or memory runs out.
    Root(BasisError),
    /// The search over the bases stops: a number doesn't fit, the budget of pairs of a flip is spent, or memory runs out.
    Search(TreeError),
    /// At a basis and a maximal cone of the prevariety the test stops: a number doesn't fit, the budget of pairs is spent, or memory runs out.
    Initial(InitialError),
    /// Memory runs out.
    Memory,
}

impl From<TropicalError> for BasisTestError {
    ghost from_gives = { λ r e. e ≡ Prevariety r };

    fn from(refusal: TropicalError) -> BasisTestError {
        BasisTestError::Prevariety(refusal)
    }
}

impl From<BasisError> for BasisTestError {
    ghost from_gives = { λ r e. e ≡ Root r };

    fn from(refusal: BasisError) -> BasisTestError {
        BasisTestError::Root(refusal)
    }
}

impl From<TreeError> for BasisTestError {
    ghost from_gives = { λ r e. e ≡ Search r };

    fn from(refusal: TreeError) -> BasisTestError {
        BasisTestError::Search(refusal)
    }
}

impl From<InitialError> for BasisTestError {
    ghost from_gives = { λ r e. e ≡ Initial r };

    fn from(refusal: InitialError) -> BasisTestError {
        BasisTestError::Initial(refusal)
    }
}

impl From<AllocError> for BasisTestError {
    ghost from_gives = { λ _ e. e ≡ Memory };

    fn from(_error: AllocError) -> BasisTestError {
        BasisTestError::Memory
    }
}
