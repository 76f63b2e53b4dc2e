// The parts of a file by their places.
ghost use Rattle.std.specs.Prelude.{◌≡◌, ◌<◌, length, Err, IfOk, IfErr};
ghost use Rattle.mc_car.specs.CarRead.{car_of, section_of, sections_at};
ghost use Rattle.mc_car.specs.Places.{IsFront, IsPlace};
ghost use Rattle.mc_car.specs.Steps.{IsFaultOf, Names};

use crate::fault::{CarError, CarFault, CarFaultKind};
use crate::header::{read_roots, split_cid};
use crate::layout::CID_LEN;
use crate::piece::next_piece;
use mc_base::{Cid, List};
use std::alloc::Global;

/// What stands in front of a file's sections.
#[derive(Debug, Drop)]
pub struct Front {
    /// The roots, in order.
    pub roots: List<Cid>,
    /// The offset at which the sections begin.
    pub end: usize,
}

/// A section by its place in a file.
#[derive(Clone, Copy, Debug, PartialEq, Eq)]
pub struct Place {
    /// The content identifier.
    pub cid: Cid,
    /// The offset of the block's first byte.
    pub from: usize,
    /// The offset after its last byte, where the next section begins.
    pub to: usize,
}

/// The roots of a CARv1 file, and where its sections begin; or the fault of its first piece.
pub fn read_front(alloc: Global, bytes: &[u8]) -> Result<Front, CarError>
    ensures front { IfOk result (λ front. IsFront bytes.now front) }
    ensures fault { IfErr result (λ error. IsFaultOf (car_of bytes.now) error) }
{
    let header = match next_piece(bytes, 0) {
        Ok(header) => header,
        Err(fault) => return Err(CarError::Fault(fault)),
    };
    match read_roots(alloc, &bytes[header.from..header.to]) {
        Ok(roots) => Ok(Front {
            roots,
            end: header.to,
        }),
        Err(error) => Err(error),
    }
}

/// The section at an offset of a file, or the first fault from there on. Its block is digested once and not copied.
/// Takes no memory.
pub fn read_place(bytes: &[u8], at: usize) -> Result<Place, CarFault>
    requires { at < length bytes.now }
    ensures place { IfOk result (λ place. IsPlace bytes.now at place) }
    ensures fault { IfErr result (λ fault. sections_at bytes.now at ≡ Err fault) }
{
    let span = match next_piece(bytes, at) {
        Ok(span) => span,
        Err(fault) => return Err(fault),
    };
    match read_cid(at as u64, &bytes[span.from..span.to]) {
        Ok(cid) => Ok(Place {
            cid,
            from: span.from + CID_LEN,
            to: span.to,
        }),
        Err(fault) => Err(fault),
    }
}

// The identifier of the section that a piece's body is, where the piece's varint stands at an offset.
fn read_cid(at: u64, body: &[u8]) -> Result<Cid, CarFault>
    ensures named { IfOk result (λ cid. Names at body.now cid) }
    ensures fault { IfErr result (λ fault. section_of at body.now ≡ Err fault) }
{
    let Some((cid, block)) = split_cid(body) else {
        return Err(CarFault {
            kind: CarFaultKind::NoCid,
            at,
        });
    };
    if Cid::of(block) != cid {
        return Err(CarFault {
            kind: CarFaultKind::WrongDigest,
            at,
        });
    }
    Ok(cid)
}
