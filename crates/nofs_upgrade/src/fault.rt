//! Why an image isn't upgraded.
use nofs_super::MountFault;

/// Why an image isn't upgraded. The first fault is named, in this order.
#[derive(Clone, Copy, Debug, PartialEq, Eq)]
pub enum UpgradeFault {
    /// A mount refuses the disk too, or the device failed, or there was no memory. `ReadFault` and
    /// `OutOfMemory` come before the write, and `WriteFault` is one of the upgrade's write or flush.
    Mount(MountFault),
    /// The version is 2. It is tested before want of memory.
    Already,
}
