//! A member that an exact search may answer, ordered by distance, then name.
/// A member by its place, and its distance to what is looked for.
#[derive(Clone, Copy, Debug, PartialEq, Eq)]
pub struct Hit {
    pub place: u32,
    pub dist: u32,
}

/// A member that may be among the nearest, ordered as members are answered: by distance, then name. The place decides between equal names.
#[derive(Clone, Copy, PartialEq, Eq, PartialOrd, Ord)]
pub struct Candidate<'a> {
    pub dist: u32,
    pub name: &'a [u8],
    pub place: u32,
}
