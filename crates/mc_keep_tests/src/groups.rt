// Blocks that differ.
ghost use Rattle.std.specs.Prelude.{◌≡◌};
ghost use Rattle.mc_model.specs.declared.block.Block.{Block};
ghost use Rattle.mc_model.specs.Ascending.{is_once};
ghost use Rattle.mc_model.specs.Front.{same_cid, is_processed};

use mc_base::Cid;
use mc_model::Block;

/// Whether no block stands twice, by comparing each with each.
pub fn are_once(blocks: &[Block]) -> bool
    ensures { result ≡ is_once (λ (a b : Block). same_cid a.cid b.cid) blocks.now }
{
    match blocks {
        [] => true,
        [first, rest @ ..] => !has_block(rest, &first.cid) && are_once(rest),
    }
}

fn has_block(blocks: &[Block], cid: &Cid) -> bool
    ensures { result ≡ is_processed blocks.now cid.now }
{
    for block in blocks {
        if *cid == block.cid {
            return true;
        }
    }
    false
}
