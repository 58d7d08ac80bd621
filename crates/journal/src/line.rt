//! A post: so many cents to an account.
/// A line of the journal: so many cents to an account.
#[derive(Clone, Copy, PartialEq, Eq, Debug)]
pub struct Line {
    /// The account; 0 to 11 in a line that the journal wrote.
    pub account: u32,
    /// The amount in cents, of either sign.
    pub cents: i64,
}
