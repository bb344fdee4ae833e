// What rounds take of what judging tells.

/// What a round takes of what judging a declaration again tells.
#[derive(Clone, Copy, Debug, PartialEq, Eq)]
pub enum Taking {
    /// Types and faults. A declaration of which nothing is known counts as one that has failed, so
    /// that these are certain.
    Certain,
    /// Types, and that a declaration depends on one that has failed.
    Depending,
    /// All that is told.
    Everything,
}
