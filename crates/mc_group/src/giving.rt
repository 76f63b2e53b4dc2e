// An inbox is given up.
ghost use Rattle.std.specs.Prelude.{◌≡◌, []};
ghost use Rattle.mc_queue.specs.Views.{shown};
ghost use Rattle.mc_group.specs.Inboxes.{given_back_queue};

use mc_inbox::Inbox;
use mc_queue::Queue;

/// Takes all blocks out of an inbox: each that is in flight comes to the back of waiting, one after another.
pub fn give_back_all(inbox: &mut Inbox, queue: &mut Queue)
    ensures empty { inbox.new.items ≡ [] }
    ensures room { inbox.new.room ≡ inbox.old.room }
    ensures queue { shown queue.new ≡ given_back_queue (shown queue.old) inbox.old.items }
{
    while let Some(item) = inbox.take() {
        queue.back(&item.cid);
    }
}
