// The lengths of blocks.
ghost use Rattle.std.specs.Prelude.{◌≡◌, ◌+◌, ◌<◌, ◌≤◌, ◌^◌, length};
ghost use Rattle.mc_base.specs.Node.{link_bytes};
ghost use Rattle.mc_model.specs.DeltaText.{priority_bytes};
ghost use Rattle.mc_write.specs.Lengths.{capped, links_length, field_length, block_length, IsTombLen, IsRoom};
ghost use Rattle.mc_write.specs.Pairs.{row_cids};

use mc_base::Cid;
use mc_keep::HeadRow;
use mc_key::Key;
use mc_wire::varint_len;

/// The most bytes of a block.
pub(crate) const BLOCK_MAX: u64 = 1_048_576;

/// The bytes of a link.
pub(crate) const LINK_LEN: u64 = 44;

// The bytes of a block's id.
const ID_LEN: u64 = 56;

/// The bytes of the links to heads, at most `u64::MAX`.
pub(crate) fn links_len(heads: &[HeadRow]) -> u64
    ensures { result ≡ capped (links_length (row_cids heads.now)) }
{
    let mut len: u64 = 0;
    for head in heads {
        len = len.saturating_add(link_len(head.cid));
    }
    len
}

fn link_len(cid: Cid) -> u64
    ensures len { result ≡ length (link_bytes cid) }
{
    LINK_LEN
}

/// The bytes of a block by those of its links and of its delta, at most `u64::MAX`.
pub(crate) fn block_len(links: u64, delta: u64) -> u64
    ensures { result ≡ capped (block_length links delta) }
{
    links
        .saturating_add(1 + varint_len(delta))
        .saturating_add(delta)
}

/// The bytes of a written priority.
pub(crate) fn priority_len(priority: u64) -> u64
    ensures len { result ≡ length (priority_bytes priority) }
    ensures small { result ≤ 11 }
    ensures left { priority < 2 ^ 64 }
{
    if priority == 0 {
        0
    } else {
        1 + varint_len(priority)
    }
}

/// The bytes of a tombstone of the key.
#[tactic(auto, using(crate::proofs::LengthFacts::key_length))]
pub(crate) fn tomb_len(key: &Key<'_>) -> u64
    ensures { IsTombLen key.now result }
{
    let text = key.as_str();
    field_len(field_len(text.len() as u64) + field_len(ID_LEN))
}

// The bytes of a field of so many bytes.
fn field_len(len: u64) -> u64
    requires { len ≤ 4096 }
    ensures len { result ≡ field_length len }
    ensures small { result ≤ len + 11 }
{
    1 + varint_len(len) + len
}

/// How many of so many tombstones of one length a block has room for.
pub(crate) fn room_for(links: u64, base: u64, tomb: u64, most: usize) -> usize
    requires { (base ≤ 11) × (tomb ≤ 2048) }
    ensures { IsRoom links base tomb most result }
{
    let mut taken = 0;
    let mut delta = base;
    while taken < most {
        if block_len(links, delta + tomb) > BLOCK_MAX {
            return taken;
        }
        delta += tomb;
        taken += 1;
    }
    taken
}
