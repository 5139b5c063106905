use crate::sample::Value;
use hx_pool::{Linked, Links};
use hx_text::Octets;

/// What a variable belongs to: the process, the session of a connection, the transaction, the
/// request or the response.
#[derive(Clone, Copy, PartialEq, Eq)]
pub(crate) enum Owner {
    Process,
    Session(u32),
    Transaction,
    Request,
    Response,
}

/// A variable in a slot of memory: its owner, its name without the scope, its value, and the
/// variables of the same owner before and after it. Owner and name tell, without any chain, which
/// variable stands in a slot.
#[derive(Drop)]
pub(crate) struct StoredVariable {
    pub(crate) owner: Owner,
    pub(crate) name: Octets,
    pub(crate) value: Value,
    pub(crate) links: Links,
}

impl Linked for StoredVariable {
    ghost use mathlib.Core.Path.{refl, sym, ◌∙◌};
    ghost use Rattle.hx_sample.specs.Slots.{variable_links, IsSameVariable};

    ghost links_of = { variable_links };

    ghost same = { IsSameVariable };

    fn links(&self) -> Links {
        self.links
    }

    fn set_links(&mut self, links: Links) {
        self.links = links;
    }

    ghost same_self = { λ x. refl };

    ghost same_back = { λ x y e. sym e };

    ghost same_on = { λ x y z e f. e ∙ f };
}
