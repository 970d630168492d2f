//! A disk that is formatted and mounted, one Put at it, and the mount after a crash.
pub(crate) mod crashes;
pub(crate) mod files;
pub(crate) mod mounts;
