// What holds of every block that is made.
ghost use Rattle.std.specs.Prelude.{◌≡◌, ◌≤◌, List, length, true, Ok};
ghost use Rattle.mc_base.specs.declared.cid.Cid.{Cid};
ghost use Rattle.mc_model.specs.declared.delta.Delta.{Delta};
ghost use Rattle.mc_model.specs.Made.{made_bytes, made_cid};
ghost use Rattle.mc_model.specs.Offer.{offer, is_good, block_max};
ghost use Rattle.mc_block.specs.Limits.{FitsTypes};

use mc_base::cids_are_read;
use mc_dagpb::written_nodes_are_read;
use mc_delta::written_deltas_are_read;

/// A block that is made and has at most 1,048,576 bytes is good under its content identifier, with exactly these links
/// and this delta. For the values of a program `write_block` says so without a condition.
pub fn written_blocks_are_good()
    ensures offered { (links : List Cid) (delta : Delta) → FitsTypes links delta →
        length (made_bytes links delta) ≤ block_max →
        offer (made_cid links delta) (made_bytes links delta)
        ≡ Ok (record { cid = made_cid links delta; links = links; delta = delta }) }
    ensures good { (links : List Cid) (delta : Delta) → FitsTypes links delta →
        length (made_bytes links delta) ≤ block_max →
        is_good (made_cid links delta) (made_bytes links delta) ≡ true }
{
    cids_are_read();
    written_nodes_are_read();
    written_deltas_are_read();
}
