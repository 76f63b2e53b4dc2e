// What holds of the definitions, whatever is read or written.
ghost use Rattle.std.specs.Prelude.{◌≡◌, ◌≤◌, ◌<◌, ◌^◌, ℕ, List, ◌++◌, length, take, Ok, Some};
ghost use Rattle.mc_base.specs.Wire.{IsVarint, Fields, Field, IsPiece, Varint, Part, varint_bytes, varint_field_bytes};
ghost use Rattle.mc_base.specs.Wire.{part_field_bytes};
ghost use Rattle.mc_base.specs.WireRead.{front_varint, fields_of};

/// A varint by its bytes and value is the one that is read at the front of a text.
pub fn varints_are_read()
    ensures read { (bytes : List ℕ) (value : ℕ) (rest : List ℕ) → IsVarint bytes value → front_varint (bytes ++ rest)
        ≡ Ok (value, length bytes) }
    ensures found { (text : List ℕ) (value len : ℕ) → front_varint text ≡ Ok (value, len) →
        IsVarint (take len text) value × (len ≤ length text) }
{}

/// A text is the concatenation of the pieces of some fields exactly where these fields are read from it.
pub fn fields_are_read()
    ensures read { (text : List ℕ) (fields : List Field) → Fields text fields → fields_of text ≡ Some fields }
    ensures found { (text : List ℕ) (fields : List Field) → fields_of text ≡ Some fields → Fields text fields }
{}

/// What is written for a value or a field is a varint of that value, or a piece of that field.
pub fn written_is_read()
    ensures varint { (value : ℕ) → value < 2 ^ 64 → IsVarint (varint_bytes value) value }
    ensures varint_field { (number value : ℕ) → 1 ≤ number → number ≤ 15 → value < 2 ^ 64 →
        IsPiece (varint_field_bytes number value) (record { number = number; content = Varint value }) }
    ensures part_field { (number : ℕ) (part : List ℕ) → 1 ≤ number → number ≤ 15 → length part < 2 ^ 64 →
        IsPiece (part_field_bytes number part) (record { number = number; content = Part part }) }
{}
