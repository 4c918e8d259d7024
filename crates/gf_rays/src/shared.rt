//! Vectors that a cone and its parts have in one index.
ghost use Rattle.std.specs.Prelude.{◌≡◌, IfOk, IfErr, length};
ghost use Rattle.gf_gordan.specs.declared.error.GordanError.TheVariants.{Memory};

use gf_gordan::GordanError;
use gf_vec::IntVec;
use std::alloc::Global;
use std::marker::Model;
use std::sync::Arc;

/// Vectors, seen as the list of them, that aren't copied where they are shared.
#[derive(Drop)]
pub struct Shared {
    items: Arc<Vec<IntVec>>,
}

impl Model for Shared {
    ghost use Rattle.std.specs.Prelude.{List, ℤ};
    ghost use Rattle.std.specs.Arc.{arc_value};

    ghost Value = { List (List ℤ) };

    ghost view = { λ s. (arc_value s.items).items };
}

impl Shared {
    /// These vectors.
    ///
    /// # Errors
    /// `Memory` if memory runs out.
    pub(crate) fn of(alloc: Global, items: Vec<IntVec>) -> Result<Shared, GordanError>
        ensures ok { IfOk result (λ s. s ≡ items.items) }
        ensures err { IfErr result (λ e. e ≡ Memory) }
    {
        Ok(Shared {
            items: Arc::new(alloc, items)?,
        })
    }

    /// These vectors once more, shared and not copied.
    ///
    /// # Errors
    /// `Memory` where they can't be shared once more.
    pub(crate) fn again(&self) -> Result<Shared, GordanError>
        ensures ok { IfOk result (λ s. s ≡ self.now) }
        ensures err { IfErr result (λ e. e ≡ Memory) }
    {
        Ok(Shared {
            items: Arc::try_clone(&self.items)?,
        })
    }

    /// The vectors.
    pub(crate) fn as_slice(&self) -> &[IntVec]
        ensures { result.now ≡ self.now }
    {
        self.items.as_slice()
    }
    /// How many vectors.
    pub(crate) fn len(&self) -> usize
        ensures { result ≡ length self.now }
    {
        self.items.len()
    }
}
