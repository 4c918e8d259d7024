//! Monomials in one more variable.

ghost use Rattle.std.specs.Prelude.{◌≡◌, ◌<◌, ◌^◌, ◌++◌, ◌∷◌, [], length};
ghost use Rattle.gf_poly.specs.declared.TheConstants.{ROOM};

use crate::ROOM;
use crate::monomial::Mono;
use std::alloc::Global;

/// The monomial times a power of one more variable, which is the last: of fewer than `ROOM` variables, the exponent below `2^31`.
pub fn filled(alloc: Global, x: &Mono, exponent: u32) -> Mono
    requires room { length x.now < ROOM }
    requires limit { exponent < 2 ^ 31 }
    ensures { result ≡ x.now ++ exponent ∷ [] }
{
    let old = x.exponents();
    let mut all = [0; ROOM];
    'entries: for i in 0..old.len() {
        all[i] = old[i];
    }
    all[old.len()] = exponent;
    Mono::new(alloc, &all[..old.len() + 1])
}
