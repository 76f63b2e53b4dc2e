// What holds of the definitions, whatever is read or written.
ghost use Rattle.std.specs.Prelude.{◌≡◌, ◌↔◌, ℕ, List, true, is_some, Some, None, Ok, Err};
ghost use Rattle.mc_model.specs.DeltaText.{DeltaFault, delta_of, delta_fault, delta_read, delta_bytes};
ghost use Rattle.mc_model.specs.declared.delta.Delta.{Delta};
ghost use Rattle.mc_delta.specs.Written.{IsWritable};

/// A text is a delta exactly where that delta is read from it, and has a first fault exactly where that fault is read
/// from it: each text is the one or has the other.
pub fn deltas_are_read()
    ensures read { (text : List ℕ) (delta : Delta) → (delta_read text ≡ Ok delta) ↔ (delta_of text ≡ Some delta) }
    ensures fault { (text : List ℕ) (fault : DeltaFault) →
        (delta_read text ≡ Err fault) ↔ (delta_fault text ≡ Some fault) }
    ensures fine { (text : List ℕ) → (delta_fault text ≡ None) ↔ (is_some (delta_of text) ≡ true) }
{}

/// What is written for a delta is read as it.
pub fn written_deltas_are_read()
    ensures delta { (delta : Delta) → IsWritable delta → delta_of (delta_bytes delta) ≡ Some delta }
    ensures read { (delta : Delta) → IsWritable delta → delta_read (delta_bytes delta) ≡ Ok delta }
{}
