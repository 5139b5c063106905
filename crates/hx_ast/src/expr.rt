use crate::conv::Conv;
use crate::fetch::Fetch;
use crate::items::Items;

/// The converters of an expression, in their order.
pub type Convs = Items<Conv>;

/// An expression: a fetch, and the converters that its sample goes through from the first to the
/// last (HAProxy configuration manual 2.4, section 7.3).
pub struct Expr {
    /// what is taken from the request, its connection or the variables
    pub fetch: Fetch,
    /// what is made of it, one after the other
    pub convs: Convs,
}

// Written out, so that letting one go is one call in the proofs of callers.
impl Drop for Expr {
    fn drop(self) {
        let Expr {
            fetch: _fetch,
            convs: _convs,
        } = self;
    }
}
