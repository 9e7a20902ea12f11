//! The limits of a request, which are those of the definitions.

/// The most bytes of a key or a name.
pub(crate) const MAX_NAME_BYTES: usize = 1024;

/// The most bytes of an attribute.
pub(crate) const MAX_ATTRIBUTE_BYTES: usize = 16384;

/// The most bytes of a filter.
pub(crate) const MAX_FILTER_BYTES: usize = 4096;

/// The most components of a vector.
pub(crate) const MAX_COMPONENTS: u32 = 4096;

/// The greatest EF.
pub(crate) const MAX_EF: u32 = 65536;

/// The greatest COUNT.
pub(crate) const MAX_COUNT: u32 = 65536;

/// The greatest FILTER-EF.
pub(crate) const MAX_FILTER_EF: u32 = 2147483647;

/// The least M.
pub(crate) const MIN_M: u32 = 4;

/// The greatest M.
pub(crate) const MAX_M: u32 = 256;

/// The greatest count of VRANDMEMBER, without its sign.
pub(crate) const MAX_PICKS: i64 = 65536;

/// The greatest level of a member.
pub(crate) const MAX_LEVEL: u32 = 15;
