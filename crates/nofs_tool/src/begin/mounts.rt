//! Formatting a device and mounting it.
//!
//! Promise: a mount that begins has raised the mount number, durably. Its numbers are of a superblock by which such a
//! device can be mounted: where the device tells, of the one in block 0. A fault of the device is answered only where
//! the device's count of faults rose.

ghost use Rattle.std.specs.Prelude.{◌≡◌, ◌≤◌, [], IfErr, IfOk, IsTrue, Some};
ghost use Rattle.nofs_super.specs.Format.{IsFormatted};
ghost use Rattle.nofs_tool.specs.Session.Whole.{IsMet};
ghost use Rattle.nofs_tool.specs.Begin.Mounts.{HasNoMount, IsRaisedFrom, IsUnformatted, IsUnmounted};
ghost use Rattle.nofs_tool.specs.Begin.Mounts.{format_cause as format_cause_in};
ghost use Rattle.nofs_tool.specs.Begin.Mounts.{mount_cause as mount_cause_in};
ghost use Rattle.nofs_tool.specs.Begin.Mounts.{status_of as status_in};

use nofs_disk::Disk;
use nofs_shared::{BeginFault, Mount};
use nofs_super::{FormatFault, MountFault, format};
use std::alloc::Global;

/// Why a device was not formatted and mounted.
#[derive(Clone, Copy)]
pub enum Cause {
    /// A call of the device failed.
    Device,
    /// Memory was wanting.
    NoMemory,
    /// The numbers can't be those of this device.
    Format(FormatFault),
    /// The device can't be mounted.
    Mount(MountFault),
}

/// A device that was not mounted.
#[derive(Drop)]
pub struct Refused<D> {
    pub disk: D,
    pub cause: Cause,
}

/// The numbers of blocks and inodes of a new file system.
#[derive(Clone, Copy)]
pub struct Numbers {
    pub blocks: u64,
    pub inodes: u64,
}

/// The status that a cause ends the program with: 3 for the device, 7 for memory, else 4.
pub(crate) fn status_of(cause: Cause) -> u8
    ensures { result ≡ status_in cause }
{
    match cause {
        Cause::Device => 3,
        Cause::NoMemory => 7,
        Cause::Format(_) => 4,
        Cause::Mount(_) => 4,
    }
}

fn format_cause(fault: FormatFault) -> Cause
    ensures { result ≡ format_cause_in fault }
{
    match fault {
        FormatFault::WriteFault => Cause::Device,
        FormatFault::OutOfMemory => Cause::NoMemory,
        FormatFault::TooSmall { least } => Cause::Format(FormatFault::TooSmall { least }),
        FormatFault::TooLarge { most } => Cause::Format(FormatFault::TooLarge { most }),
        FormatFault::NotMultiple { inodes } => Cause::Format(FormatFault::NotMultiple { inodes }),
    }
}

fn mount_cause(fault: MountFault) -> Cause
    ensures { result ≡ mount_cause_in fault }
{
    match fault {
        MountFault::ReadFault | MountFault::WriteFault => Cause::Device,
        MountFault::OutOfMemory => Cause::NoMemory,
        MountFault::BadMagic { found } => Cause::Mount(MountFault::BadMagic { found }),
        MountFault::BadVersion { found } => Cause::Mount(MountFault::BadVersion { found }),
        MountFault::BadGeometry { blocks, inodes } => {
            Cause::Mount(MountFault::BadGeometry { blocks, inodes })
        }
        MountFault::DeviceTooSmall { has } => Cause::Mount(MountFault::DeviceTooSmall { has }),
        MountFault::MountsSpent { found } => Cause::Mount(MountFault::MountsSpent { found }),
        MountFault::BadRest { at } => Cause::Mount(MountFault::BadRest { at }),
    }
}

/// Mounts a device: its mount number is then one higher, durably. Its numbers are of a superblock by which such a
/// device can be mounted: where the device tells, of the one in block 0.
pub(crate) fn mount<D: Disk + Drop>(alloc: Global, disk: D) -> Result<Mount<D>, Refused<D>>
    ensures mount { IfOk result (λ m. (m.found.value ≡ disk) × (m.first ≡ 0) × (m.core.books.history.entries ≡ [])) }
    ensures raised { IfOk result (λ m. IsRaisedFrom (D.state m.found.value) m.core.books.at) }
    ensures refused { IfErr result (λ r. IsUnmounted (D.state disk) (D.state r.disk) r.cause) }
{
    match Mount::begin(alloc, disk, 0) {
        Ok(mount) => Ok(mount),
        Err(BeginFault { disk, cause }) => Err(Refused {
            disk,
            cause: mount_cause(cause),
        }),
    }
}

/// Formats a device with these numbers, and mounts it.
pub(crate) fn format_and_mount<D: Disk + Drop>(
    alloc: Global,
    disk: D,
    numbers: Numbers,
) -> Result<Mount<D>, Refused<D>>
    ensures mount { IfOk result (λ m. (m.first ≡ 0) × (m.core.books.history.entries ≡ [])
        × ((D.state disk).faults ≤ (D.state m.found.value).faults)) }
    ensures raised { IfOk result (λ m. IsRaisedFrom (D.state m.found.value) m.core.books.at) }
    ensures formatted { IfOk result
        (λ m. IsFormatted numbers.blocks numbers.inodes (D.state disk) (D.state m.found.value)) }
    ensures met { IfOk result (λ m. IsTrue (D.state disk).tells → IsMet (D.state m.found.value)) }
    ensures refused { IfErr result
        (λ r. IsUnformatted (D.state disk) (D.state r.disk) numbers.blocks numbers.inodes r.cause) }
    ensures unmounted { IfErr result (λ r. HasNoMount D.state (Some numbers) disk r.disk r.cause) }
{
    let mut disk = disk;
    match format(&mut disk, numbers.blocks, numbers.inodes) {
        Ok(()) => mount(alloc, disk),
        Err(fault) => Err(Refused {
            disk,
            cause: format_cause(fault),
        }),
    }
}
