// What stands before a field of a node.
ghost use Rattle.std.specs.Prelude.{◌≡◌, ◌⊎◌, IfNone, List, ℕ, ◌++◌, ◌∷◌, [], drop, false, None};
ghost use Rattle.std.specs.Option.{option_map};
ghost use Rattle.mc_base.specs.NodeRead.{node_key_fault};
ghost use Rattle.mc_dagpb.specs.Named.{kind_named};
ghost use Rattle.mc_dagpb.specs.Before.{IsAfter, has_data};
ghost use Rattle.mc_dagpb.specs.Step.{number_of_field};

use crate::NodeFaultKind;
use crate::step::NodeField;

pub(crate) const DATA: u64 = 1;

pub(crate) const LINK: u64 = 2;

const PART_TYPE: u64 = 2;

// The fields before one of a node.
#[derive(Clone, Copy)]
pub(crate) enum Order {
    // No field.
    Start,
    // Data, and perhaps links after it.
    DataFirst,
    // Links alone.
    Links,
    // Links, and Data after them.
    DataLast,
}

impl Order {
    // Why a key may not stand here.
    pub(crate) fn key_fault(self, number: u64, wire_type: u64) -> Option<NodeFaultKind>
        ensures fault { (before : List ℕ) → IsAfter before self → option_map kind_named result
            ≡ node_key_fault before number wire_type }
        ensures number { IfNone result ((number ≡ 1) ⊎ (number ≡ 2)) }
        ensures wire_type { IfNone result (wire_type ≡ 2) }
    {
        let refused = match number {
            DATA => self.refuses_data(),
            LINK => self.refuses_links(),
            _ => return Some(NodeFaultKind::BadField),
        };
        if wire_type != PART_TYPE {
            return Some(NodeFaultKind::WireType);
        }
        if refused {
            return Some(NodeFaultKind::Order);
        }
        None
    }

    // Whether a Data stands before.
    fn refuses_data(self) -> bool
        ensures { (before : List ℕ) → IsAfter before self → has_data before ≡ result }
    {
        match self {
            Order::Start | Order::Links => false,
            Order::DataFirst | Order::DataLast => true,
        }
    }

    // Whether a Data stands before that isn't the first field.
    fn refuses_links(self) -> bool
        ensures { (before : List ℕ) → IsAfter before self → has_data (drop 1 before) ≡ result }
    {
        match self {
            Order::Start | Order::DataFirst | Order::Links => false,
            Order::DataLast => true,
        }
    }

    // What stands before the field after one that may stand here.
    pub(crate) fn after(self, field: NodeField) -> Order
        ensures { (before : List ℕ) → IsAfter before self → node_key_fault before (number_of_field field) 2 ≡ None →
            IsAfter (before ++ number_of_field field ∷ []) result }
    {
        match field {
            NodeField::Data(_) => self.after_data(),
            NodeField::Link(_) => self.after_link(),
        }
    }

    // What stands before the field after a Data that may stand here.
    fn after_data(self) -> Order
        ensures { (before : List ℕ) → IsAfter before self → has_data before ≡ false →
            IsAfter (before ++ 1 ∷ []) result }
    {
        match self {
            Order::Start => Order::DataFirst,
            Order::DataFirst | Order::Links | Order::DataLast => Order::DataLast,
        }
    }

    // What stands before the field after a link that may stand here.
    fn after_link(self) -> Order
        ensures { (before : List ℕ) → IsAfter before self → has_data (drop 1 before) ≡ false →
            IsAfter (before ++ 2 ∷ []) result }
    {
        match self {
            Order::Start => Order::Links,
            other => other,
        }
    }
}
