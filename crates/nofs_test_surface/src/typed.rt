//! The type of a field of a variant.

/// The number of a variant whose field has this type, or whose fields have these.
pub(crate) fn typed<T>(_field: &T, variant: u8) -> u8 {
    variant
}
