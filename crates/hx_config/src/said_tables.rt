//! The tables of statements that are said otherwise.

use crate::options::OptionRow;

/// Actions of `http-request` that end the request, each with the status of the denial that is
/// written for it where its options give none: HAProxy's own, and 599 for those that answer nothing
/// (HAProxy configuration manual 2.6, section 4.2).
pub(crate) const DENIALS: [(&[u8], &[u8]); 6] = [
    (b"deny", b"403"),
    (b"return", b"200"),
    (b"tarpit", b"500"),
    (b"auth", b"401"),
    (b"silent-drop", b"599"),
    (b"reject", b"599"),
];

/// The options of a denial that hxeval takes.
pub(crate) const PLAIN_OPTIONS: [OptionRow; 2] = [(b"status", b"n"), (b"deny_status", b"n")];

/// The options of these actions, with a letter for each argument.
pub(crate) const DENIAL_OPTIONS: [OptionRow; 12] = [
    (b"status", b"n"),
    (b"deny_status", b"n"),
    (b"content-type", b"t"),
    (b"default-errorfiles", b""),
    (b"errorfile", b"f"),
    (b"errorfiles", b"s"),
    (b"file", b"f"),
    (b"lf-file", b"f"),
    (b"string", b"t"),
    (b"lf-string", b"t"),
    (b"hdr", b"nt"),
    (b"realm", b"t"),
];
