// The fields of a node: Data (1), and links (2).
ghost use Rattle.std.specs.Prelude.{◌≡◌, ◌≤◌, ◌-◌, ◌⊎◌, List, ℕ, [], length, Ok, Err, None, Some, IfOk, IfSome, IfErr};
ghost use Rattle.std.specs.Prelude.{IfNone};
ghost use Rattle.mc_base.specs.NodeRead.{node_fault, body_fault, part_in};
ghost use Rattle.mc_base.specs.Wire.{wire_type};
ghost use Rattle.mc_wire.specs.Named.{fronts_at, content_at, field_at, EndsAt, FieldAt};
ghost use Rattle.mc_dagpb.specs.Before.{IsAfter};
ghost use Rattle.mc_dagpb.specs.Named.{fault_named};
ghost use Rattle.mc_dagpb.specs.Step.{StepAt, StepOf};

use crate::fault::kind_of;
use crate::link::{Span, read_link};
use crate::order::{DATA, Order};
use crate::{NodeFault, NodeFaultKind};
use mc_wire::{Content, Field, next_key, read_field};

// Where the bytes of Data stand, or those of the Hash of a link.
#[derive(Clone, Copy)]
pub(crate) enum NodeField {
    Data(Span),
    Link(Span),
}

// A field of a node, and the offset after it.
#[derive(Clone, Copy)]
pub(crate) struct Step {
    pub(crate) field: NodeField,
    pub(crate) next: usize,
}

// The field at an offset of a node, where the fields before it are these.
pub(crate) fn next_node_field(
    bytes: &[u8],
    at: usize,
    order: Order,
) -> Result<Option<Step>, NodeFault>
    requires { at ≤ length bytes.now }
    ensures end { IfOk result (λ found. IfNone found (fronts_at bytes.now at ≡ [])) }
    ensures step { IfOk result (λ found. IfSome found (λ step. StepAt bytes.now at order step)) }
    ensures fault { IfErr result (λ fault. (before : List ℕ) → IsAfter before order →
        node_fault before (fronts_at bytes.now at) ≡ Some (fault_named fault)) }
{
    let Some(key) = next_key(bytes, at)? else {
        return Ok(None);
    };
    if let Some(kind) = order.key_fault(key.number, key.wire_type) {
        return Err(NodeFault { kind, at });
    }
    match read_field(bytes, key) {
        Ok(field) => Ok(Some(step_of(bytes, at, field)?)),
        Err(fault) => Err(NodeFault {
            kind: kind_of(fault),
            at,
        }),
    }
}

// What a field of bytes is, with a look into a link.
fn step_of(bytes: &[u8], at: usize, field: Field) -> Result<Step, NodeFault>
    requires placed { FieldAt bytes.now at field }
    requires number { (field.number ≡ 1) ⊎ (field.number ≡ 2) }
    requires typed { wire_type (content_at bytes.now field.content) ≡ 2 }
    ensures step { IfOk result (λ step. StepOf bytes.now at field step) }
    ensures fault { IfErr result (λ fault. body_fault at (field.next - at) (field_at bytes.now field)
        ≡ Some (fault_named fault)) }
{
    let Content::Part { from, to } = field.content else {
        return Err(NodeFault {
            kind: NodeFaultKind::WireType,
            at,
        });
    };
    if field.number == DATA {
        return Ok(Step {
            field: NodeField::Data(Span { from, to }),
            next: field.next,
        });
    }
    let hash = read_link(&bytes[..to], at, from)?;
    Ok(Step {
        field: NodeField::Link(hash),
        next: field.next,
    })
}
