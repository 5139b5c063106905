use hx_text::Octets;

/// What is to be done with a request (HAProxy configuration manual 2.4, section 4.2).
#[derive(Drop, PartialEq, Eq)]
pub enum Verdict {
    /// it goes to this backend, and to none where there is no name
    Pass { backend: Option<Octets> },
    /// it is denied with this status
    Deny { code: u16 },
    /// the client is sent elsewhere, with this status
    Redirect { code: u16, location: Octets },
    /// it ends with an internal error
    Error,
}
