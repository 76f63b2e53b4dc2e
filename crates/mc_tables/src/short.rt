// Bytes of which a few take no memory of their own.
ghost use Rattle.std.specs.Prelude.{◌≡◌, ℕ, List, IfOk};

use mc_base::Bytes;
use smallvec::SmallVec;
use std::alloc::{AllocError, Global};
use std::marker::Model;

// So many bytes stand beside their number, where a vector has its address and its room.
const FEW: usize = 16;

/// Bytes that don't grow. A few of them stand in place.
#[derive(Debug, Drop)]
pub(crate) struct ShortBytes {
    bytes: SmallVec<u8, FEW>,
}

impl Model for ShortBytes {
    ghost Value = { List ℕ };

    ghost view = { λ short. short.bytes.items };
}

impl ShortBytes {
    // Takes bytes over. It takes no memory, and gives it back where there are few.
    pub(crate) fn from_bytes(bytes: Bytes) -> ShortBytes
        ensures { result ≡ bytes }
    {
        ShortBytes {
            bytes: SmallVec::from_vec(bytes.into_vec()),
        }
    }

    pub(crate) fn as_slice(&self) -> &[u8]
        ensures { result.now ≡ self.now }
    {
        self.bytes.as_slice()
    }

    pub(crate) fn to_bytes(&self, alloc: Global) -> Result<Bytes, AllocError>
        ensures { IfOk result (λ copy. copy ≡ self.now) }
    {
        Bytes::from_slice(alloc, self.as_slice())
    }
}
