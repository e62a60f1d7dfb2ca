//! Identifiers that denote a name of the top.

/// An identifier that denotes a binding of the top, as far as order goes.
#[derive(Clone, Copy)]
pub struct Seen {
    /// The number of the item in which it stands.
    pub item: usize,
    /// The number of the binding.
    pub binding: usize,
    /// Whether it declares the binding; else it refers to it.
    pub declares: bool,
    /// Whether it runs later than its item.
    pub is_later: bool,
    /// Whether it is assigned, or stands in an argument of a call.
    pub fills: bool,
    /// Whether it is the root of a chain of members that is assigned to, or the `b` of a `b.prototype` in an
    /// argument of `Object.assign`.
    pub sets_up: bool,
    /// Whether it is declared without a value.
    pub is_empty: bool,
}
