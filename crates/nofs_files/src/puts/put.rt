//! What a Put is asked.

/// A Put as it is asked.
#[derive(Clone, Copy)]
pub struct Put<'a> {
    pub inode: u32,
    pub generation: u64,
    pub slot: u64,
    pub at: u32,
    pub bytes: &'a [u8],
}
