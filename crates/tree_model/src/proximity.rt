//! Where a key is in an index.

/// Where a key is, with a cursor at that place.
#[derive(Debug, Drop)]
pub enum ProximityOf<C> {
    /// The key is present. The forward end is on it.
    Exact(C),
    /// The key is absent. The forward end is on the nearest smaller key, the backward end on the
    /// nearest larger one.
    Between(C),
    /// All keys are smaller. The backward end is on the largest one.
    Smaller(C),
    /// All keys are larger. The forward end is on the smallest one.
    Larger(C),
    /// There is no key.
    Empty,
}
