//! What is known of a row at a vector: whether it isn't positive there, and whether it isn't zero.
ghost use Rattle.std.specs.Prelude.{◌≡◌, length};
ghost use Rattle.gf_fan.specs.Signs.{IsSign};

use gf_vec::IntVec;

/// What is known of a row at a vector; nothing where their dot product can't be worked out.
#[derive(Clone, Copy)]
pub(crate) struct Sign {
    pub(crate) not_positive: bool,
    pub(crate) not_zero: bool,
}

/// What is known of a row at a vector.
pub(crate) fn sign_at(h: &IntVec, v: &IntVec) -> Sign
    requires { length h.now ≡ length v.now }
    ensures { IsSign h.now v.now result }
{
    match h.dot(v) {
        Ok(value) => Sign {
            not_positive: value <= 0,
            not_zero: value != 0,
        },
        Err(_) => Sign {
            not_positive: false,
            not_zero: false,
        },
    }
}
