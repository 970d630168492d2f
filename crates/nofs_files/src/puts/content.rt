//! The content of a slot after a Put.
ghost use Rattle.std.specs.Prelude.{◌≡◌, ◌+◌, ◌≤◌, ◌<◌, length};
ghost use Rattle.nofs_ptrs.specs.Paths.{slot_limit};
ghost use Rattle.nofs_history.specs.Machine as machine;
ghost use Rattle.nofs_model.specs.declared.image.value.Value.TheVariants as value;

use nofs_disk::write_bytes_at;

/// How many bytes of a slot lie below the size.
pub(crate) fn cut_of(size: u64, slot: u64) -> usize
    requires { slot < slot_limit }
    ensures cut { result ≡ machine.cut_of size slot }
    ensures within { result ≤ 1024 }
{
    let start = 1024 * slot;
    if size <= start {
        0
    } else if size - start >= 1024 {
        1024
    } else {
        (size - start) as usize
    }
}

/// Zeros from a place on.
#[tactic(auto, unfolding(nofs_history::specs::Machine::trimmed))]
pub(crate) fn trim(payload: &mut [u8; 1024], cut: usize)
    requires { cut ≤ 1024 }
    ensures { payload.new ≡ machine.trimmed cut payload.old }
{
    payload[cut..].fill(0);
}

/// Writes bytes into the content of a slot, with zeros behind the file's end.
#[tactic(auto, unfolding(nofs_history::specs::Machine::put_content))]
pub(crate) fn put_content(payload: &mut [u8; 1024], size: u64, slot: u64, at: usize, bytes: &[u8])
    requires slot { slot < slot_limit }
    requires range { at + length bytes.now ≤ 1024 }
    ensures { payload.new ≡ machine.put_content (value.Bytes payload.old) size slot at bytes.now }
{
    trim(payload, cut_of(size, slot));
    write_bytes_at(payload, at, bytes);
}
