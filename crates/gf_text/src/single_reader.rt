//! The reading of items of a single token: a dimension, and the name of a new variable.
ghost use Rattle.std.specs.Prelude.{◌≤◌, IfOk, IfErr, length};
ghost use Rattle.gf_text.specs.Singles.{IsDimensionRead, IsDimensionCause, IsNameRead, IsNameCause};

use crate::MOST_VARIABLES;
use crate::error::{Cause, TextError, refused_at};
use crate::names::Ring;
use crate::ring_reader::is_name;
use crate::tokens::{Number, number_of, word_from};
use crate::vector_reader::MOST_ENTRY;

/// The greatest dimension.
const MOST_DIMENSION: u128 = MOST_VARIABLES as u128;

/// The dimension that stands in the source from this place on, and the place behind it.
pub(crate) fn dimension_from(source: &[u8], from: usize) -> Result<(u32, usize), TextError>
    requires { from ≤ length source.now }
    ensures ok { IfOk result (λ x. IsDimensionRead (record { source = source.now; at = from }) x.1 x.0) }
    ensures err { IfErr result (IsDimensionCause (record { source = source.now; at = from })) }
    ensures within { IfOk result (λ x. x.1 ≤ length source.now) }
{
    let Some((start, end)) = word_from(source, from) else {
        return Err(refused_at(source.len(), Cause::Ended));
    };
    match number_of(&source[start..end], MOST_ENTRY) {
        Number::None => Err(refused_at(start, Cause::Unexpected)),
        Number::Wide => Err(refused_at(start, Cause::TooWide)),
        Number::Within(n) => {
            if n > MOST_DIMENSION {
                return Err(TextError::TooManyVariables { count: n as u64 });
            }
            Ok((n as u32, end))
        }
    }
}

/// The name that stands in the source from this place on, which isn't one of the ring, and the place behind it.
pub(crate) fn name_from<'a>(
    ring: &Ring,
    source: &'a [u8],
    from: usize,
) -> Result<(&'a [u8], usize), TextError>
    requires { from ≤ length source.now }
    ensures ok { IfOk result (λ x. IsNameRead ring.now (record { source = source.now; at = from }) x.1 x.0.now) }
    ensures err { IfErr result (IsNameCause ring.now (record { source = source.now; at = from })) }
    ensures within { IfOk result (λ x. x.1 ≤ length source.now) }
{
    let Some((start, end)) = word_from(source, from) else {
        return Err(refused_at(source.len(), Cause::Ended));
    };
    let name = &source[start..end];
    if !is_name(name) {
        return Err(refused_at(start, Cause::Unexpected));
    }
    if ring.has(name) {
        return Err(refused_at(start, Cause::RepeatedName));
    }
    Ok((name, end))
}
