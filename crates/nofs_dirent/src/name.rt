//! Which names an entry can have.
//!
//! Promise: `name_ok` says yes exactly for the names that a directory can hold.
ghost use Rattle.std.specs.Prelude.{◌≡◌, ◌↔◌, IsTrue};
ghost use Rattle.std.specs.List.{list_all};
ghost use Rattle.nofs_dirent.specs.Names.{NameOk, is_name, is_name_byte};

/// Whether an entry can have this name: 1 to 48 bytes, none of them 0, the end of a line (10 or
/// 13), a space or a slash, and neither `.` nor `..`.
pub fn name_ok(name: &[u8]) -> bool
    ensures fact { IsTrue result ↔ NameOk name.now }
    ensures value { result ≡ is_name name.now }
{
    is_name(name)
}

#[tactic(auto, unfolding(crate::specs::Names::is_name))]
fn is_name(name: &[u8]) -> bool
    ensures { result ≡ is_name name.now }
{
    1 <= name.len()
        && name.len() <= 48
        && has_name_bytes(name)
        && !(name == b".".as_slice() || name == b"..".as_slice())
}

fn has_name_bytes(name: &[u8]) -> bool
    ensures { result ≡ list_all is_name_byte name.now }
{
    name.iter().all(|&byte| is_name_byte(byte))
}

fn is_name_byte(byte: u8) -> bool
    ensures { result ≡ is_name_byte byte }
{
    !(byte == 0 || byte == 10 || byte == 13 || byte == 32 || byte == 47)
}
