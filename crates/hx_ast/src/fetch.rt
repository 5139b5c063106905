use hx_text::{Ip, Octets, VarName};

/// What an expression takes from a request, its connection or the variables (HAProxy configuration
/// manual 2.4, sections 7.3.2 to 7.3.6): a variant for each fetch, whose fields are its arguments
/// in their order. An argument that may be missing is an option. Names that HAProxy has for the
/// same fetch, such as `hdr` and `req.hdr`, share a variant.
///
/// The number after the name of a header is that of an occurrence: of the header's values, or
/// lines, from the first, 1, where it is positive, and from the last, -1, where it is negative.
pub enum Fetch {
    /// `always_true`
    AlwaysTrue,
    /// `always_false`
    AlwaysFalse,
    /// `bool(B)`: the boolean B
    Bool(bool),
    /// `int(N)`: the number N
    Int(i64),
    /// `str(S)`: the text S
    Str(Octets),
    /// `bin(H)`: the bytes that the hexadecimal digits H write, as bytes
    Bin(Octets),
    /// `ipv4(A)`: the address A
    Ipv4(Ip),
    /// `ipv6(A)`: the address A
    Ipv6(Ip),
    /// `var(NAME[,DEFAULT])`: the value of the variable NAME, or DEFAULT where it isn't set
    Var(VarName, Option<Octets>),
    /// `src`: the address that the connection comes from
    Src,
    /// `dst`: the address that the connection goes to
    Dst,
    /// `src_port`: the port that the connection comes from
    SrcPort,
    /// `dst_port`: the port that the connection goes to
    DstPort,
    /// `method`: the method
    Method,
    /// `req.ver`, `req_ver`: the version, `1.0` or `1.1`
    ReqVer,
    /// `path`: the path of the target
    Path,
    /// `query`: what follows the first `?` of the target
    Query,
    /// `url`: the whole target
    Url,
    /// `base`: the value of the first `Host` line, and the path after it
    Base,
    /// `req.hdr(NAME[,OCC])`, `hdr`: the values of the lines of the header NAME
    ReqHdr(Octets, Option<i64>),
    /// `req.fhdr(NAME[,OCC])`: the whole lines of the header NAME
    ReqFhdr(Octets, Option<i64>),
    /// `req.hdr_ip(NAME[,OCC])`, `hdr_ip`: the values of the header NAME as addresses
    ReqHdrIp(Octets, Option<i64>),
    /// `req.hdr_val(NAME[,OCC])`, `hdr_val`: the values of the header NAME as numbers
    ReqHdrVal(Octets, Option<i64>),
    /// `req.hdr_cnt([NAME])`, `hdr_cnt`: how many values the header NAME has, or all headers have
    ReqHdrCnt(Option<Octets>),
    /// `req.cook([NAME])`, `cook`: the cookies NAME, or all cookies
    ReqCook(Option<Octets>),
    /// `req.cook_cnt([NAME])`, `cook_cnt`: how many cookies NAME, or cookies at all, there are
    ReqCookCnt(Option<Octets>),
    /// `url_param([NAME[,DELIM]])`, `urlp`: the parameters NAME of the target, or all parameters;
    /// DELIM begins and separates parameters too
    UrlParam(Option<Octets>, Option<u8>),
}

// Written out, so that letting one go is one call in the proofs of callers.
impl Drop for Fetch {
    fn drop(self) {
        match self {
            Fetch::AlwaysTrue => (),
            Fetch::AlwaysFalse => (),
            Fetch::Bool(_it) => (),
            Fetch::Int(_it) => (),
            Fetch::Str(_it) => (),
            Fetch::Bin(_it) => (),
            Fetch::Ipv4(_it) => (),
            Fetch::Ipv6(_it) => (),
            Fetch::Var(_first, _second) => (),
            Fetch::Src => (),
            Fetch::Dst => (),
            Fetch::SrcPort => (),
            Fetch::DstPort => (),
            Fetch::Method => (),
            Fetch::ReqVer => (),
            Fetch::Path => (),
            Fetch::Query => (),
            Fetch::Url => (),
            Fetch::Base => (),
            Fetch::ReqHdr(_first, _second) => (),
            Fetch::ReqFhdr(_first, _second) => (),
            Fetch::ReqHdrIp(_first, _second) => (),
            Fetch::ReqHdrVal(_first, _second) => (),
            Fetch::ReqHdrCnt(_it) => (),
            Fetch::ReqCook(_it) => (),
            Fetch::ReqCookCnt(_it) => (),
            Fetch::UrlParam(_first, _second) => (),
        }
    }
}
