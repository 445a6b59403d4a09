//! What is counted together, and what is done with merge keys.

/// What the counts are taken over.
#[derive(Clone, Copy, Debug, PartialEq, Eq)]
pub enum EnforcingPolicy {
    /// All content is counted together.
    AllContent,
    /// Each document is counted on its own.
    PerDocument,
}

/// What is done with merge keys. They are counted only where they are merged.
#[derive(Clone, Copy, Debug, PartialEq, Eq)]
pub enum MergeKeyPolicy {
    /// A merge key puts the entries of another mapping in its place.
    Merge,
    /// A merge key is a key like any other.
    AsOrdinary,
    /// A merge key is an error.
    Error,
}
