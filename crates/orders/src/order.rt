//! Priority rules: by what those that wait go first.

/// By what those that wait go first.
#[derive(Clone, Copy)]
pub enum Order {
    /// By arrival, and of those that arrived together by number.
    FirstCome,
    /// By weight, the greater first; of equal ones by arrival and number.
    ByWeight,
}
