// A planned failure of a commit.

/// The commit that is to fail, and whether its effect comes first.
#[derive(Clone, Copy, Debug, PartialEq, Eq)]
pub struct Fuse {
    /// The number of the commit, counted from 1 from now on.
    pub commit: u64,
    /// Whether the commit takes effect before it fails.
    pub after: bool,
}
