ghost use Rattle.std.specs.Prelude.{◌≡◌};

/// The numbers before and after a value in its chain.
#[derive(Clone, Copy, PartialEq, Eq)]
pub struct Links {
    pub prev: Option<usize>,
    pub next: Option<usize>,
}

impl Links {
    /// No value before, and none after.
    pub const NONE: Links = Links {
        prev: None,
        next: None,
    };
}

/// A value that keeps links, so that a chain can lead through it.
pub trait Linked {
    ghost use Rattle.hx_pool.specs.declared.links.Links.{Links};

    // The links of a value.
    ghost links_of: { Self → Links };

    // Two values that are equal but for their links.
    ghost same: { Self → Self → Type 0 };

    /// The links.
    fn links(&self) -> Links
        ensures { result ≡ links_of self.now };

    /// Puts `links` in place of the links, and leaves everything else.
    fn set_links(&mut self, links: Links)
        ensures links { links_of self.new ≡ links }
        ensures same { same self.old self.new };

    ghost same_self: { (x : Self) → same x x };

    ghost same_back: { (x y : Self) → same x y → same y x };

    ghost same_on: { (x y z : Self) → same x y → same y z → same x z };
}
