use hx_http::Message;
use hx_sample::Vars;
use hx_text::Ip;

/// A connection: its number, and the addresses and ports that it comes from and goes to.
#[derive(Clone, Copy, PartialEq, Eq)]
pub struct Conn {
    pub id: u32,
    pub src: Ip,
    pub src_port: u16,
    pub dst: Ip,
    pub dst_port: u16,
}

/// What a fetch looks at: a request, the connection that it came by, and the variables.
#[derive(Drop)]
pub struct World<'w> {
    pub message: &'w Message,
    pub conn: &'w Conn,
    pub vars: &'w Vars,
}
