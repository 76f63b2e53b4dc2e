// What the types of links and deltas say of every value. The loops only read it, and leave nothing to be done.
ghost use Rattle.std.specs.Prelude.{◌≡◌, true, IsTrue, length};
ghost use Rattle.std.specs.List.{list_all};
ghost use Rattle.std.specs.Str.{is_utf8};
ghost use Rattle.mc_dagpb.specs.Written.{has_digest};
ghost use Rattle.mc_delta.specs.Written.{element_has_text, tomb_has_text};
ghost use Rattle.mc_block.specs.Limits.{FitsTypes};

use mc_base::Cid;
use mc_model::{Delta, Element, Tomb};

// All of it.
pub(crate) fn fit_types(links: &[Cid], delta: &Delta)
    ensures { FitsTypes links.now delta.now }
{
    have_digests(links);
    elements_have_texts(delta.elements.as_slice());
    tombs_have_texts(delta.tombstones.as_slice());
    let _priority = delta.priority;
}

// Each digest has 32 bytes.
fn have_digests(links: &[Cid])
    ensures { IsTrue (list_all has_digest links.now) }
{
    for link in links {
        is_digest(link.0);
    }
}

fn is_digest(digest: [u8; 32])
    ensures { length digest ≡ 32 }
{
    let _first = digest[0];
}

// Each key is UTF-8.
fn elements_have_texts(elements: &[Element])
    ensures { IsTrue (list_all element_has_text elements.now) }
{
    for element in elements {
        is_text(element.key.as_str());
    }
}

// Each key and each id is UTF-8.
fn tombs_have_texts(tombstones: &[Tomb])
    ensures { IsTrue (list_all tomb_has_text tombstones.now) }
{
    for tomb in tombstones {
        is_text(tomb.key.as_str());
        is_text(tomb.id.as_str());
    }
}

fn is_text(text: &str)
    ensures { is_utf8 text.now ≡ true }
{
    let _len = text.len();
}
