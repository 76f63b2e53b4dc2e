//! A hook that keeps an index.
ghost use Rattle.std.specs.Prelude.{◌≡◌};

use crate::histories::history;
use mc_base::List;
use mc_feed::{Event, Feed, Hook};
use std::alloc::{AllocError, Global};
use std::collections::BTreeMap;
use std::test::Fail;

/// The events that it was told, and of each key the place of the last one, which has the key's value.
#[derive(Drop)]
struct Index {
    alloc: Global,
    events: List<Event>,
    last: BTreeMap<String, usize>,
}

impl Hook for Index {
    ghost taken = { λ index. index.events };

    fn told(&mut self, event: Event) -> Result<(), AllocError> {
        let key = String::from_str(self.alloc, event.key.as_str())?;
        self.last.insert(key, self.events.len())?;
        match self.events.push(event) {
            Ok(()) => Ok(()),
            Err(_refused) => Err(AllocError),
        }
    }
}

impl Index {
    // The position at which the key came to the value that it has, with the value, or none.
    fn found(&self, key: &str) -> Option<(u64, &[u8])> {
        let Some(place) = self.last.get(key) else {
            return None;
        };
        match self.events.as_slice().get(*place) {
            Some(event) => match &event.value {
                Some(value) => Some((event.position, value.as_slice())),
                None => None,
            },
            None => None,
        }
    }
}

#[test]
fn an_index_has_the_value_of_each_key(rt: HostRuntime) -> Result<(), Fail> {
    let alloc = rt.alloc();
    let blocks = history(alloc)?;
    let mut feed = Feed::new(
        alloc,
        Index {
            alloc,
            events: List::new(alloc),
            last: BTreeMap::new(alloc),
        },
    );
    for block in blocks.as_slice().iter().take(4) {
        let passed = feed.pass(alloc, block);
        assert!(rt; passed.is_ok());
    }
    let index = feed.end();
    // the delete at the position 3 uncovers the value of the first put
    assert!(rt; index.found("/a") == Some((3, &[1][..])));
    assert!(rt; index.found("/b") == Some((2, &[][..])));
    assert!(rt; index.found("/c").is_none());
    Ok(())
}
