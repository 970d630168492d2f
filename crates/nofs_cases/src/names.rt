//! Small instances of the laws of steps on names: their premises are met by disks of 16 blocks.
//!
//! Promise: the disks before and after a Make, a Rename, a Link and a Drop lie as the laws ask.

ghost use Rattle.nofs_cases.specs.Names.Steps.{BareCase, DropFileCase, DropNameCase, EntriesCase, LinkCase, MakeCase};
ghost use Rattle.nofs_cases.specs.Names.Steps.{NameHomesCase, RenameCase};

/// A Make, a Rename, a Link and a Drop, where the file has another name and where it has none.
pub fn law_name_cases()
    ensures make { MakeCase }
    ensures bare { BareCase }
    ensures rename { RenameCase }
    ensures homes { NameHomesCase }
    ensures link { LinkCase }
    ensures drop_name { DropNameCase }
    ensures drop_file { DropFileCase }
    ensures entries { EntriesCase }
{}
