use hx_ast::Items;
use hx_text::By;
use std::marker::Model;

/// The flags of an ACL by their words (HAProxy configuration manual 2.4, section 7.1).
pub(crate) const FLAGS: [(&[u8], Flag); 7] = [
    (b"-i", Flag::IgnoreCase),
    (b"-M", Flag::TwoColumns),
    (b"-n", Flag::Numeric),
    (b"-f", Flag::File),
    (b"-m", Flag::Method),
    (b"-u", Flag::Number),
    (b"--", Flag::End),
];

/// The match methods as `-m` names them (HAProxy configuration manual 2.4, section 7.1.3).
pub(crate) const METHODS: [(&[u8], By); 13] = [
    (b"int", By::Int),
    (b"ip", By::Ip),
    (b"bin", By::Bin),
    (b"len", By::Len),
    (b"str", By::Str),
    (b"beg", By::Beg),
    (b"end", By::End),
    (b"sub", By::Sub),
    (b"dir", By::Dir),
    (b"dom", By::Dom),
    (b"reg", By::Reg),
    (b"found", By::Found),
    (b"bool", By::Bool),
];

/// A flag of an ACL.
#[derive(Clone, Copy)]
pub(crate) enum Flag {
    /// `-i`
    IgnoreCase,
    /// `-M`
    TwoColumns,
    /// `-n`, which has no effect
    Numeric,
    /// `-f FILE`
    File,
    /// `-m METHOD`
    Method,
    /// `-u N`
    Number,
    /// `--`, after which patterns follow
    End,
}

/// A reference that an ACL searches, and whether it ignores the case of letters there.
#[derive(Clone, Copy)]
pub(crate) struct Searched {
    pub(crate) table: u32,
    pub(crate) ci: bool,
}

impl Model for Searched {
    ghost use Rattle.hx_spell.specs.Flags.{Searched};

    ghost Value = { Searched };

    ghost view = { λ searched. record { table = searched.table; ci = searched.ci } };

    ghost inverse = { λ searched. record { table = searched.table; ci = searched.ci } };
}

/// What the flags up to a place say.
#[derive(Drop)]
pub(crate) struct Flags {
    /// whether what follows ignores the case of letters
    pub(crate) ci: bool,
    /// whether the files that follow have two columns
    pub(crate) two: bool,
    /// the match method, where the name of the fetch or `-m` says it
    pub(crate) by: Option<By>,
    /// the number of the reference of the inline patterns
    pub(crate) given: Option<u32>,
    /// the files
    pub(crate) files: Items<Searched>,
}

impl Model for Flags {
    ghost use Rattle.hx_spell.specs.Flags.{Flags};

    ghost Value = { Flags };

    ghost view = { λ flags. record {
      ci = flags.ci;
      two = flags.two;
      by = flags.by;
      given = flags.given;
      files = flags.files;
    } };
}
