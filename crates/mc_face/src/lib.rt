//! Reads that never wait: one writer shows the values of a list of blocks, and up to sixteen readers, each in a thread
//! of its own, read what was shown last. The crate knows blocks, keys and values alone, and no keeper, replica or node:
//! who calls it says which blocks there are and what becomes of their keys. Its contract stands on `FaceWriter` and
//! `FaceReader`, in the words of specs/Words.antt: an answer is the value rule's over a list of blocks that begins with
//! all that the reader had seen and with each list that it was told of.
#![tactic(auto)]

mod change;
mod exactness;
mod front;
mod glance;
mod making;
mod places;
mod reader;
mod rows;
mod rule;
mod shown;
mod writer;

pub use change::Change;
pub use exactness::Exactness;
pub use front::Front;
pub use glance::{Glance, GlanceError, Told};
pub use making::{FaceRefused, face};
pub use reader::FaceReader;
pub use rule::Faced;
pub use shown::Shown;
pub use writer::FaceWriter;
