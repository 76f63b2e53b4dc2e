// Which keys a prefix selects.
ghost use Rattle.std.specs.Prelude.{◌≡◌};
ghost use Rattle.mc_key.specs.Prefix as prefixes;

/// Whether a prefix selects a key. The slashes at the prefix's end don't count. A prefix of slashes alone, or of
/// nothing, selects every key; any other selects those that begin with it and a slash. Takes no memory.
pub fn under(prefix: &str, key: &str) -> bool
    ensures { result ≡ prefixes.is_under prefix.now key.now }
{
    let prefix = without_slashes(prefix.as_bytes());
    if prefix.is_empty() {
        return true;
    }
    match key.as_bytes().strip_prefix(prefix) {
        Some(rest) => rest.starts_with(b"/"),
        None => false,
    }
}

// The bytes without the slashes at their end.
fn without_slashes(bytes: &[u8]) -> &[u8]
    ensures { result.now ≡ prefixes.without_slashes bytes.now }
{
    let mut rest = bytes;
    while let [front @ .., last] = rest {
        if *last != b'/' {
            return rest;
        }
        rest = front;
    }
    rest
}
