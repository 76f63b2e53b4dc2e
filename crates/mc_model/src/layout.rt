// How far the winner rows of a keeper have come.
ghost use Rattle.std.specs.Prelude.{◌≡◌};
ghost use Rattle.mc_model.specs.Layouts.{covers, is_upto};

use mc_base::Text;

/// Of which keys a keeper has the winner row: the block that gives the key its value.
#[derive(Debug, Drop)]
pub enum Layout {
    /// Of the keys up to this one, or of none.
    One {
        /// The greatest key that may have one.
        upto: Option<Text>,
    },
    /// Of all keys.
    Two,
}

impl Layout {
    /// Whether a key with a value has its winner row. Takes no memory.
    pub fn covers(&self, key: &str) -> bool
        ensures { result ≡ covers self.now key.now }
    {
        match self {
            Layout::One { upto: None } => false,
            Layout::One { upto: Some(upto) } => is_upto(upto.as_bytes(), key.as_bytes()),
            Layout::Two => true,
        }
    }
}

// Whether a key is not above this one.
fn is_upto(upto: &[u8], key: &[u8]) -> bool
    ensures { result ≡ is_upto upto.now key.now }
{
    !upto.cmp(key).is_lt()
}
