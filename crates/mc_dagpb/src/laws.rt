// What holds of the definitions, whatever is read or written.
ghost use Rattle.std.specs.Prelude.{◌≡◌, ◌+◌, ◌*◌, ◌^◌, ◌<◌, ℕ, List, length, map, Option, Ok, Some, IsTrue};
ghost use Rattle.std.specs.List.{list_all};
ghost use Rattle.mc_base.specs.Node.{IsNode, node_bytes};
ghost use Rattle.mc_base.specs.NodeRead.{node_of};
ghost use Rattle.mc_base.specs.Wire.{varint_bytes};
ghost use Rattle.mc_base.specs.declared.cid.Cid.{Cid};
ghost use Rattle.mc_dagpb.specs.Written.{cid_bytes, has_digest};

/// A text is a node with these links and this payload exactly where these are read from it.
pub fn nodes_are_read()
    ensures read { (text : List ℕ) (links : List (List ℕ)) (payload : Option (List ℕ)) →
        IsNode text links payload → node_of text ≡ Ok (record { links = links; payload = payload }) }
    ensures found { (text : List ℕ) (links : List (List ℕ)) (payload : Option (List ℕ)) →
        node_of text ≡ Ok (record { links = links; payload = payload }) → IsNode text links payload }
{}

/// What is written for some links and a payload is read as them: a node whose links are the 36 bytes of each
/// identifier, and whose Data is the payload. Its length is that of `node_len`.
pub fn written_nodes_are_read()
    ensures node { (links : List Cid) (payload : List ℕ) → IsTrue (list_all has_digest links) →
        length payload < 2 ^ 64 →
        IsNode (node_bytes links payload) (map cid_bytes links) (Some payload) }
    ensures read { (links : List Cid) (payload : List ℕ) → IsTrue (list_all has_digest links) →
        length payload < 2 ^ 64 →
        node_of (node_bytes links payload) ≡ Ok (record { links = map cid_bytes links; payload = Some payload }) }
    ensures len { (links : List Cid) (payload : List ℕ) → IsTrue (list_all has_digest links) →
        length (node_bytes links payload)
        ≡ 44 * length links + 1 + length (varint_bytes (length payload)) + length payload }
{}
