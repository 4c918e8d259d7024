//! How many points are to be highest.

/// How many points are to be highest on a part of a cone.
#[derive(Clone, Copy)]
pub enum Members {
    One,
    Two,
}
