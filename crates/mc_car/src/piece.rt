// The pieces of a file: a varint of a length, and as many bytes.
ghost use Rattle.std.specs.Prelude.{◌≡◌, ◌≤◌, length, drop, Err, IfOk, IfErr};
ghost use Rattle.mc_car.specs.CarRead.{piece_of};
ghost use Rattle.mc_car.specs.Steps.{PieceAt};

use crate::fault::{CarFault, CarFaultKind};
use mc_base::read_varint;

/// Where the body of a piece begins and ends.
#[derive(Clone, Copy)]
pub(crate) struct Span {
    pub(crate) from: usize,
    pub(crate) to: usize,
}

/// The piece whose varint stands at an offset.
pub(crate) fn next_piece(bytes: &[u8], at: usize) -> Result<Span, CarFault>
    requires { at ≤ length bytes.now }
    ensures piece { IfOk result (λ span. PieceAt bytes.now at span) }
    ensures fault { IfErr result (λ fault. piece_of at (drop at bytes.now) ≡ Err fault) }
{
    let Ok((len, size)) = read_varint(&bytes[at..]) else {
        return Err(CarFault {
            kind: CarFaultKind::BadVarint,
            at: at as u64,
        });
    };
    let from = at + size;
    if len > (bytes.len() - from) as u64 {
        return Err(CarFault {
            kind: CarFaultKind::CutShort,
            at: at as u64,
        });
    }
    let to = from + len as usize;
    Ok(Span { from, to })
}
