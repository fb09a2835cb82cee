//! What stands in a file one behind the other.

/// What stands next.
#[derive(Drop)]
pub enum Next<T> {
    /// Nothing more.
    End,
    /// What isn't kept.
    Other,
    /// A value.
    Item(T),
}
