// Deltas by the vectors of the format.
use crate::texts::bytes_of;
use mc_base::{Bytes, List, Text};
use mc_delta::{DeltaError, DeltaFault, DeltaFaultKind, len_delta, read_delta, write_delta};
use mc_model::{Delta, Element, Tomb};
use mc_wire::WireFault;
use std::alloc::{AllocError, Global};
use std::test::Fail;

// What a delta says: its one element by key and value, its one tombstone by key and id, and its priority.
type Said<'a> = (Option<(&'a str, &'a [u8])>, Option<(&'a str, &'a str)>, u64);

fn has_element(elements: &[Element], wanted: Option<(&str, &[u8])>) -> bool {
    match (elements, wanted) {
        ([element], Some((key, value))) => {
            element.key.as_str() == key && element.value.as_slice() == value
        }
        ([], None) => true,
        _ => false,
    }
}

fn has_tomb(tombs: &[Tomb], wanted: Option<(&str, &str)>) -> bool {
    match (tombs, wanted) {
        ([tomb], Some((key, id))) => tomb.key.as_str() == key && tomb.id.as_str() == id,
        ([], None) => true,
        _ => false,
    }
}

fn says(delta: &Delta, said: Said<'_>) -> bool {
    let (element, tomb, priority) = said;
    has_element(delta.elements.as_slice(), element)
        && has_tomb(delta.tombstones.as_slice(), tomb)
        && delta.priority == priority
}

fn is_read(alloc: Global, text: &str, said: Said<'_>) -> Result<bool, Fail> {
    let bytes = bytes_of(alloc, text)?;
    match read_delta(alloc, bytes.as_slice()) {
        Ok(delta) => Ok(says(&delta, said)),
        Err(_) => Ok(false),
    }
}

#[test]
fn deltas_are_read_by_the_vectors(rt: HostRuntime) -> Result<(), Fail> {
    let rows: [(&str, Said<'static>); 7] = [
        ("", (None, None, 0)),
        ("0a070a022f611a01011801", (Some(("/a", b"\x01")), None, 1)),
        ("18011802", (None, None, 2)),
        ("28071802", (None, None, 2)),
        ("0801", (None, None, 0)),
        ("180512090a01611201620a0163", (None, Some(("c", "b")), 5)),
        ("0a0b1a01011a01021201782800", (Some(("", b"\x02")), None, 0)),
    ];
    for (text, said) in rows {
        assert!(rt; is_read(rt.alloc(), text, said)?, "{text}");
    }
    Ok(())
}

fn fault_of(alloc: Global, text: &str) -> Result<Option<DeltaFault>, Fail> {
    let bytes = bytes_of(alloc, text)?;
    match read_delta(alloc, bytes.as_slice()) {
        Err(DeltaError::Fault(fault)) => Ok(Some(fault)),
        _ => Ok(None),
    }
}

fn wire(fault: WireFault) -> DeltaFaultKind {
    DeltaFaultKind::Wire { fault }
}

#[test]
fn faults_are_the_first_by_the_vectors(rt: HostRuntime) -> Result<(), Fail> {
    let rows = [
        ("0a030a01ff", DeltaFaultKind::TextFault, 2),
        ("1b", wire(WireFault::WireType), 0),
        ("1b00", wire(WireFault::WireType), 0),
        ("00", wire(WireFault::FieldZero), 0),
        ("18", wire(WireFault::Short), 0),
        ("18ffffffffffffffffffff", wire(WireFault::LongVarint), 0),
        ("18011202120518", wire(WireFault::Short), 4),
    ];
    for (text, kind, at) in rows {
        let found = fault_of(rt.alloc(), text)?;
        assert!(rt; found == Some(DeltaFault { kind, at }), "{text}");
    }
    Ok(())
}

fn push_element(
    alloc: Global,
    elements: &mut List<Element>,
    number: u64,
) -> Result<(), AllocError> {
    let key = Text::from_string(format!(in alloc; "/k/{number}")?);
    let value = Bytes::from_slice(alloc, &number.to_be_bytes())?;
    elements.push(Element { key, value })?;
    Ok(())
}

fn one_tomb(alloc: Global, key: &str, id: &str) -> Result<List<Tomb>, AllocError> {
    let key = Text::from_text(alloc, key)?;
    let id = Text::from_text(alloc, id)?;
    let mut tombs = List::new(alloc);
    tombs.push(Tomb { key, id })?;
    Ok(tombs)
}

// A delta of so many elements and one tombstone.
fn long_delta(alloc: Global, count: u64) -> Result<Delta, AllocError> {
    let mut elements = List::new(alloc);
    for number in 0..count {
        push_element(alloc, &mut elements, number)?;
    }
    Ok(Delta {
        elements,
        tombstones: one_tomb(alloc, "/k", "/ID")?,
        priority: 300,
    })
}

// Whether a text is read as a delta of so many elements, which is written as this text again.
fn is_read_back(alloc: Global, written: &[u8], count: usize) -> Result<bool, Fail> {
    match read_delta(alloc, written) {
        Ok(delta) => Ok(
            delta.elements.len() == count
                && delta.priority == 300
                && write_delta(alloc, &delta)?.as_slice() == written,
        ),
        Err(_) => Ok(false),
    }
}

#[test]
fn a_delta_of_ten_thousand_elements_is_read_back(rt: HostRuntime) -> Result<(), Fail> {
    let alloc = rt.alloc();
    let delta = long_delta(alloc, 10_000)?;
    let length = len_delta(&delta);
    let written = write_delta(alloc, &delta)?;
    let bytes = written.as_slice();
    assert!(rt; bytes.len() as u64 == length);
    let tail = bytes_of(alloc, "12090a022f6b12032f494418ac02")?;
    assert!(rt; bytes.ends_with(tail.as_slice()));
    assert!(rt; is_read_back(alloc, bytes, 10_000)?);
    Ok(())
}
