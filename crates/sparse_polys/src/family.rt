//! The families e_k, h_k and p_k; their products over the parts of partitions are the bases e, h
//! and p.

/// One of the families e_k, h_k and p_k. The products of its members over the parts of λ, for all
/// partitions λ, are the basis e, h or p.
#[derive(Clone, Copy, PartialEq, Eq)]
pub enum Family {
    /// e_k, for the basis e.
    Elementary,
    /// h_k, for the basis h.
    Complete,
    /// p_k, for the basis p.
    PowerSum,
}
