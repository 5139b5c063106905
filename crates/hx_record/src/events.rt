use hx_text::{Ip, Octets};

/// One event of a record.
#[derive(Drop)]
pub enum Event {
    /// Connection `id` opens, between these two addresses.
    Conn {
        id: u32,
        src: Ip,
        src_port: u16,
        dst: Ip,
        dst_port: u16,
    },
    /// A request on connection `id`, as the bytes that came.
    Req {
        id: u32,
        bytes: Octets,
    },
    /// Connection `id` closes.
    Close {
        id: u32,
    },
    /// A line of management of one session.
    Cli {
        session: u32,
        text: Octets,
    },
}

/// An event, and the offset in the record at which its line begins.
#[derive(Drop)]
pub struct Placed {
    pub offset: u64,
    pub event: Event,
}

/// What a reader answers without reading its source.
#[derive(Drop)]
pub enum Next {
    /// The next event.
    Event(Placed),
    /// The record ends.
    End,
    /// More bytes decide what comes next.
    Undecided,
}
