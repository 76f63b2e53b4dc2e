//! Values that stand for a list.
ghost use Rattle.std.specs.Prelude.{◌≡◌, List, length};

/// A value that stands for a list of entries. From one give to the next a turn lets the list only grow.
pub trait Story {
    /// What the list is made of.
    type Entry;

    /// The list, which contracts alone read.
    ghost list: { Self → List Self.Entry };

    /// The number of entries in the list.
    fn length(&self) -> u64
        ensures { result ≡ length (list self.now) };
}
