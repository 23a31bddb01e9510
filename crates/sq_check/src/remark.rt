//! The remark on a part of a text.
use crate::rule::Rule;
use sq_binder::Fault;

/// The remark on a procedure, a cursor or a view.
#[derive(Clone, Copy, Debug)]
pub enum Remark {
    /// The statement or the cursor's query has this fault, so each call answers 42000.
    Fault(Fault),
    /// The cursor or the view is updatable.
    Updatable,
    /// The cursor or the view is not updatable: this is the first rule that it breaks.
    NotUpdatable(Rule),
}
