use crate::fetches::FetchName;
use hx_text::By;

/// The fetches that stand in names with a match method after them, as `path` in `path_beg` (HAProxy
/// configuration manual 2.4, section 7.3.6).
pub(crate) const DERIVED_FETCHES: [(&[u8], FetchName); 6] = [
    (b"base", FetchName::Base),
    (b"cook", FetchName::ReqCook),
    (b"hdr", FetchName::ReqHdr),
    (b"path", FetchName::Path),
    (b"url", FetchName::Url),
    (b"urlp", FetchName::UrlParam),
];

/// The match methods in such names.
pub(crate) const DERIVED_METHODS: [(&[u8], By); 7] = [
    (b"beg", By::Beg),
    (b"dir", By::Dir),
    (b"dom", By::Dom),
    (b"end", By::End),
    (b"len", By::Len),
    (b"reg", By::Reg),
    (b"sub", By::Sub),
];
