// What an entry of a log notes.

/// What an entry of a node's log notes: which kind of call left the replica that the entry is about.
#[derive(Clone, Copy, Debug, PartialEq, Eq)]
pub enum Note {
    /// The node was made.
    Root {
        /// Whether the node is for workers alone: then nobody puts, deletes or hears.
        sealed: bool,
    },
    /// A put, or a delete, made blocks and processed them.
    Made,
    /// A message was heard.
    Heard,
    /// A block that workers fetched was processed.
    Fetched,
    /// A step of a walk was made.
    Walked,
    /// A walk's end was committed.
    Cleared,
    /// The keeper failed, and the replica has stopped.
    Halted,
}
