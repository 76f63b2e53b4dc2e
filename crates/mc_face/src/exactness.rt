// Whether a face is exact.
use std::marker::Brand;

/// Whether the values that a face shows are those of its list of blocks by the value rule, for contracts alone. Where
/// they are, each change that is appended must be right, and each answer of a reader is. No value of such a type is
/// made: who makes a face picks one.
pub trait Exactness {
    ghost use Rattle.std.specs.Prelude.{Bool};

    /// Whether the face is exact.
    ghost exact: { Bool };
}

/// The name that each call picks anew: what is said of the face is then the call's own.
impl Exactness for Brand {
    ghost use Rattle.std.specs.Prelude.{true};

    ghost exact = { true };
}
