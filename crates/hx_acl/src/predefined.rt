ghost use Rattle.std.specs.Prelude.{◌≡◌, [], ◌∷◌, codes, map, option_map};
ghost use Rattle.hx_acl.specs.Predefined.{keyed_matches, predefined_matches};
ghost use Rattle.hx_ast.specs.Predefined.{is_method, predefined_acls};
ghost use Rattle.hx_base.specs.Pairs.{entry_at};
ghost use Rattle.hx_acl.specs.PredefinedView.{keyed_acl, method_acl};
ghost use Rattle.hx_fetch.specs.World.{context_of};
ghost use Rattle.hx_sample.specs.Keys.{as_ipv4, is_in_network};

use hx_fetch::World;
use hx_text::{Ip, six_to_four};

/// The names of the predefined ACLs (HAProxy configuration manual 2.4, section 7.4).
const PREDEFINED: [(&[u8], Predefined); 15] = [
    (b"TRUE", Predefined::True),
    (b"FALSE", Predefined::False),
    (b"HTTP_1.0", Predefined::Http10),
    (b"HTTP_1.1", Predefined::Http11),
    (b"HTTP_URL_SLASH", Predefined::UrlSlash),
    (b"HTTP_URL_STAR", Predefined::UrlStar),
    (b"LOCALHOST", Predefined::Localhost),
    (b"METH_GET", Predefined::Method(MethodAcl::Get)),
    (b"METH_HEAD", Predefined::Method(MethodAcl::Head)),
    (b"METH_POST", Predefined::Method(MethodAcl::Post)),
    (b"METH_PUT", Predefined::Method(MethodAcl::Put)),
    (b"METH_DELETE", Predefined::Method(MethodAcl::Delete)),
    (b"METH_OPTIONS", Predefined::Method(MethodAcl::Options)),
    (b"METH_CONNECT", Predefined::Method(MethodAcl::Connect)),
    (b"METH_TRACE", Predefined::Method(MethodAcl::Trace)),
];

/// A predefined ACL.
#[derive(Clone, Copy)]
enum Predefined {
    True,
    False,
    Http10,
    Http11,
    UrlSlash,
    UrlStar,
    Localhost,
    Method(MethodAcl),
}

/// A predefined ACL of the request's method; that of `GET` holds for `HEAD` too.
#[derive(Clone, Copy)]
enum MethodAcl {
    Get,
    Head,
    Post,
    Put,
    Delete,
    Options,
    Connect,
    Trace,
}

/// What stands in the first row of a table that has this name.
fn entry_at<T: Copy>(mut table: &[(&[u8], T)], name: &[u8]) -> Option<T>
    ensures { result ≡ entry_at (map (λ row. (row.0.now, row.1)) table.entry.now) name.now }
{
    while let [row, rest @ ..] = table {
        if row.0 == name {
            return Some(row.1);
        }
        table = rest;
    }
    None
}

/// The predefined ACL of a name.
fn predefined_named(name: &[u8]) -> Option<Predefined>
    ensures { entry_at predefined_acls name.now ≡ option_map keyed_acl result }
{
    entry_at(&PREDEFINED, name)
}

/// Whether the predefined ACL of this name holds in `world`; that of another name doesn't.
pub(crate) fn predefined_matches(name: &[u8], world: &World<'_>) -> bool
    ensures { result ≡ predefined_matches (context_of world.now) name.now }
{
    match predefined_named(name) {
        Some(acl) => acl.matches(world),
        None => false,
    }
}

/// The IPv4 address that an address is or stands for.
fn as_ipv4(ip: Ip) -> Option<u32>
    ensures { result ≡ as_ipv4 ip }
{
    match ip {
        Ip::V4(address) => Some(address),
        Ip::V6(address) => six_to_four(address),
    }
}

/// Whether the address is in 127.0.0.0/8, or stands for one that is.
fn is_local(ip: Ip) -> bool
    ensures { result ≡ is_in_network (codes "127.0.0.1/8") ip }
{
    match as_ipv4(ip) {
        Some(address) => address >> 24 << 24 == 0x7f00_0000,
        None => false,
    }
}

/// Whether the method of the request is this one, in whatever case.
fn has_method(world: &World<'_>, name: &[u8]) -> bool
    ensures { result ≡ keyed_matches (context_of world.now) (is_method (name.now ∷ [])) }
{
    world.message.method().eq_ignore_ascii_case(name)
}

impl Predefined {
    /// Whether the ACL holds in `world`.
    fn matches(self, world: &World<'_>) -> bool
        ensures { result ≡ keyed_matches (context_of world.now) (keyed_acl self) }
    {
        match self {
            Predefined::True => true,
            Predefined::False => false,
            Predefined::Http10 => world.message.minor() == 0,
            Predefined::Http11 => world.message.minor() != 0,
            Predefined::UrlSlash => world.message.target().starts_with(b"/"),
            Predefined::UrlStar => world.message.target() == b"*".as_slice(),
            Predefined::Localhost => is_local(world.conn.src),
            Predefined::Method(acl) => acl.matches(world),
        }
    }
}

impl MethodAcl {
    /// Whether the ACL holds in `world`.
    fn matches(self, world: &World<'_>) -> bool
        ensures { result ≡ keyed_matches (context_of world.now) (method_acl self) }
    {
        match self {
            MethodAcl::Get => has_method(world, b"GET") || has_method(world, b"HEAD"),
            MethodAcl::Head => has_method(world, b"HEAD"),
            MethodAcl::Post => has_method(world, b"POST"),
            MethodAcl::Put => has_method(world, b"PUT"),
            MethodAcl::Delete => has_method(world, b"DELETE"),
            MethodAcl::Options => has_method(world, b"OPTIONS"),
            MethodAcl::Connect => has_method(world, b"CONNECT"),
            MethodAcl::Trace => has_method(world, b"TRACE"),
        }
    }
}
