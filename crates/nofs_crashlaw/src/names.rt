//! The steps on names: what each leaves on the disk.

pub(crate) mod new_names;
pub(crate) mod old_names;
