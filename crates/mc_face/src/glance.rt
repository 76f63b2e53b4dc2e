// What readers are told, and what they answer.
ghost use Rattle.std.specs.Prelude.{◌≡◌};

use crate::front::Front;
use thiserror::Error;

/// What a face showed when it was published, for the readers that are to be told of it. It stands for the list of
/// blocks that was shown then.
#[derive(Drop)]
pub struct Told {
    /// How many blocks that list has.
    pub length: u64,
    pub(crate) front: Front,
    ghost counted: { length ≡ front.count },
}

/// The answer of a reader.
#[derive(Debug, Drop)]
pub struct Glance<A> {
    /// What is answered, over a list of `length` blocks.
    pub answer: A,
    /// How many blocks that list has. It begins with all that the reader had seen, and with each list that it was told
    /// of.
    pub length: u64,
}

/// Why a reader gave no answer.
#[derive(Clone, Copy, Debug, PartialEq, Eq, Error)]
pub enum GlanceError {
    /// The face gave no entry: its writer was used up, or left_right refused one.
    #[error("the face gives no entry")]
    Shut,
    /// Want of memory.
    #[error("out of memory")]
    Memory,
}
