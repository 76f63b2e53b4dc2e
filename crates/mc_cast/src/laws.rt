// What holds of the definitions, whatever is read or written.
ghost use Rattle.mc_cast.specs.Reads.{IsReadAgain, IsSoundWhole};

use mc_base::cids_are_read;
use mc_wire::{fields_are_read, written_is_read};

/// What `write_cast` writes, `read_cast` reads.
pub fn casts_are_read_again()
    ensures { IsReadAgain }
{
    cids_are_read();
    fields_are_read();
    written_is_read();
}

/// A message has no wire fault exactly where it and its heads are made of fields.
pub fn sound_casts_are_fields()
    ensures { IsSoundWhole }
{}
