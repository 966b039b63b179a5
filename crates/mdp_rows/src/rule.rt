/// How the values of a row are taken.
#[derive(Clone, Copy)]
pub enum RowRule {
    /// They add to 1.
    Exact,
    /// They add to 1 but for 1/1000, and each is divided by their sum.
    Scaled,
}
