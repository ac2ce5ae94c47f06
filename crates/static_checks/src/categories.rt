//! Categories.

/// What an expression may do (XQuery Update Facility 1.0, section 2.1).
#[derive(Clone, Copy, PartialEq, Eq, Debug)]
pub enum Category {
    /// It gives updates.
    Updating,
    /// It gives neither items nor updates: `()`, and what is made of nothing else.
    Vacuous,
    /// It gives items.
    Simple,
}

/// What the category of an expression comes from.
#[derive(Clone, Copy, PartialEq, Eq, Debug)]
pub(crate) enum Own {
    /// It is an updating one itself.
    Updates,
    /// From its results: the operands of a comma, branches, and what follows `return`.
    OfResults,
    /// It is a simple one itself.
    GivesItems,
}
