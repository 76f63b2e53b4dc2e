// The header of a file: its roots.
ghost use Rattle.std.specs.Prelude.{◌≡◌, Ok, IfOk, IfErr, option_map};
ghost use Rattle.mc_model.specs.Offer.{cid_of_bytes};
ghost use Rattle.mc_car.specs.CarRead as read;
ghost use Rattle.mc_car.specs.Steps.{IsFaultOf, counted, rooted};

use crate::fault::{CarError, CarFault, CarFaultKind};
use crate::layout::{CID_LEN, HEADER_END, HEADER_START, ROOT_START};
use mc_base::{Cid, List};
use std::alloc::Global;

const NO_HEADER: CarError = CarError::Fault(CarFault {
    kind: CarFaultKind::NoHeader,
    at: 0,
});

/// The roots that the body of the first piece names.
pub(crate) fn read_roots(alloc: Global, body: &[u8]) -> Result<List<Cid>, CarError>
    ensures roots { IfOk result (λ roots. read.header_of body.now ≡ Ok roots) }
    ensures fault { IfErr result (λ error. IsFaultOf (read.header_of body.now) error) }
{
    let Some(rest) = body.strip_prefix(&HEADER_START) else {
        return Err(NO_HEADER);
    };
    let Some((count, rest)) = read_count(rest) else {
        return Err(NO_HEADER);
    };
    read_array(alloc, count, rest)
}

// The number in the head of an array, and what stands after it.
fn read_count(text: &[u8]) -> Option<(usize, &[u8])>
    ensures { option_map counted result ≡ read.count_of text.now }
{
    let (head, rest) = text.split_first()?;
    if *head < 0x80 {
        return None;
    }
    if *head < 0x98 {
        return Some(((*head - 0x80) as usize, rest));
    }
    if *head != 0x98 {
        return None;
    }
    let (count, rest) = rest.split_first()?;
    if *count < 24 {
        return None;
    }
    Some((*count as usize, rest))
}

// So many roots, and the end of the header.
fn read_array(alloc: Global, count: usize, text: &[u8]) -> Result<List<Cid>, CarError>
    ensures roots { IfOk result (λ roots. read.roots_or_fault (read.roots_from count text.now) ≡ Ok roots) }
    ensures fault { IfErr result (λ error. IsFaultOf (read.roots_or_fault (read.roots_from count text.now)) error) }
{
    let mut roots = List::with_capacity(alloc, count)?;
    let mut rest = text;
    let mut left = count;
    while left > 0 {
        let Some((root, tail)) = read_root(rest) else {
            return Err(NO_HEADER);
        };
        roots.push(root)?;
        rest = tail;
        left -= 1;
    }
    if rest != HEADER_END.as_slice() {
        return Err(NO_HEADER);
    }
    Ok(roots)
}

// The root at the front, and what stands after it.
fn read_root(text: &[u8]) -> Option<(Cid, &[u8])>
    ensures { option_map rooted result ≡ read.root_of text.now }
{
    match text.strip_prefix(&ROOT_START) {
        Some(rest) => split_cid(rest),
        None => None,
    }
}

/// The identifier at the front, and what stands after it.
pub(crate) fn split_cid(text: &[u8]) -> Option<(Cid, &[u8])>
    ensures { option_map rooted result ≡ read.cid_and_rest text.now }
{
    if text.len() < CID_LEN {
        return None;
    }
    match read_cid(&text[..CID_LEN]) {
        Some(cid) => Some((cid, &text[CID_LEN..])),
        None => None,
    }
}

fn read_cid(bytes: &[u8]) -> Option<Cid>
    ensures { result ≡ cid_of_bytes bytes.now }
{
    Cid::from_bytes(bytes)
}
