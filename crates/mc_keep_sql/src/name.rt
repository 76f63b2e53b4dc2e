// The name of the file of a replica.
ghost use Rattle.std.specs.Prelude.{◌≡◌, IfOk};
ghost use Rattle.mc_keep_sql.specs.Name.{letter_text, name_text};

use mc_base::Text;
use std::alloc::{AllocError, Global};

/// The name of the file of the replica with this index in a folder: the folder, a slash, the replica's letter, and
/// `.db`.
pub(crate) fn file_name(alloc: Global, dir: &str, index: u64) -> Result<Text, AllocError>
    ensures { IfOk result (λ name. name ≡ name_text dir.now index) }
{
    let letter = letter_of(index);
    Ok(Text::from_string(format!(in alloc; "{dir}/{letter}.db")?))
}

// The letter of the replica with this index.
fn letter_of(index: u64) -> &'static str
    ensures { result.now ≡ letter_text index }
{
    match index {
        0 => "a",
        1 => "b",
        2 => "c",
        3 => "d",
        4 => "e",
        5 => "f",
        6 => "g",
        _ => "h",
    }
}
