// Reading a file.
ghost use Rattle.std.specs.Prelude.{◌≡◌, ◌≤◌, length, Ok, IfOk, IfErr};
ghost use Rattle.mc_car.specs.CarRead.{car_of, sections_at};
ghost use Rattle.mc_car.specs.Steps.{IsFaultOf};

use crate::car::{Car, Section};
use crate::fault::CarError;
use crate::places::{Front, read_front, read_place};
use mc_base::{Bytes, List};
use std::alloc::Global;

/// What a CARv1 file of this profile holds (IPLD CARv1 specification): a header of version 1 with at most 255 roots, and
/// blocks, each under the content identifier that its bytes have. Else the first fault, from left to right. Each block
/// is digested once and copied once.
pub fn read_car(alloc: Global, bytes: &[u8]) -> Result<Car, CarError>
    ensures car { IfOk result (λ car. car_of bytes.now ≡ Ok car) }
    ensures fault { IfErr result (λ error. IsFaultOf (car_of bytes.now) error) }
{
    let Front { roots, end } = match read_front(alloc, bytes) {
        Ok(front) => front,
        Err(error) => return Err(error),
    };
    match read_sections(alloc, bytes, end) {
        Ok(sections) => Ok(Car { roots, sections }),
        Err(error) => Err(error),
    }
}

// The sections from an offset on.
fn read_sections(alloc: Global, bytes: &[u8], from: usize) -> Result<List<Section>, CarError>
    requires { from ≤ length bytes.now }
    ensures sections { IfOk result (λ sections. sections_at bytes.now from ≡ Ok sections) }
    ensures fault { IfErr result (λ error. IsFaultOf (sections_at bytes.now from) error) }
{
    let mut sections = List::new(alloc);
    let mut at = from;
    while at < bytes.len() {
        let place = match read_place(bytes, at) {
            Ok(place) => place,
            Err(fault) => return Err(CarError::Fault(fault)),
        };
        let block = Bytes::from_slice(alloc, &bytes[place.from..place.to])?;
        sections.push(Section {
            cid: place.cid,
            bytes: block,
        })?;
        at = place.to;
    }
    Ok(sections)
}
