// The laws of blocks that come in together.
ghost use Rattle.std.specs.Prelude.{◌≡◌, ◌≤◌, ℕ, true, List, length, Some};
ghost use Rattle.std.specs.List.{list_all};
ghost use Rattle.mc_base.specs.declared.cid.Cid.{Cid};
ghost use Rattle.mc_model.specs.declared.block.Stored.{Stored};
ghost use Rattle.mc_model.specs.Draining.{AllSayRight, FoundBytes, TakesAll};
ghost use Rattle.mc_model.specs.Events.{MayComeAll};
ghost use Rattle.mc_model.specs.Found.{Offers};
ghost use Rattle.mc_model.specs.Offer.{is_good};
ghost use Rattle.mc_model.specs.State.{Durable, Running, IsSound};
ghost use Rattle.mc_inbox.specs.Groups.{AreOffered, group_events, group_of};

/// The events of blocks that come in together, of those that are in flight, may come, ask no more than a drain where
/// their bytes are those that are found, and say nothing of an offer. They process as many blocks as are taken up, and
/// no more than came in.
pub fn groups_are_drains()
    ensures may { (durable : Durable) (run : Running) (items : List Stored) →
        IsSound (record { durable = durable; run = Some run }) →
        list_all (λ (item : Stored). is_good item.cid item.bytes) items ≡ true →
        MayComeAll (record { durable = durable; run = Some run })
        (group_events durable.graph (group_of run.queue.flight items)) }
    ensures takes { (bytes_of : FoundBytes) (durable : Durable) (run : Running) (items : List Stored) →
        AreOffered bytes_of items →
        TakesAll bytes_of (record { durable = durable; run = Some run })
        (group_events durable.graph (group_of run.queue.flight items)) }
    ensures says { (found : Offers) (durable : Durable) (group : List Stored) →
        AllSayRight found (group_events durable.graph group) }
    ensures few { (flight : List Cid) (items : List Stored) → length (group_of flight items) ≤ length items }
{}
