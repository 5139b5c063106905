use crate::needle::Needle;
use crate::ranges::Bounds;
use hx_regex::RegularExpression;
use hx_text::{Net, Octets};
use memchr::memmem::Finder;

/// What was read of a pattern's text, by its method.
pub(crate) enum Form {
    Int(Bounds),
    Len(Bounds),
    Ip(Net),
    Bin(Octets),
    Text(TextForm),
    Reg(RegularExpression),
}

// Written out, so that letting one go is one call in the proofs of callers.
impl Drop for Form {
    fn drop(self) {
        match self {
            Form::Int(_it) => (),
            Form::Len(_it) => (),
            Form::Ip(_it) => (),
            Form::Bin(_it) => (),
            Form::Text(_it) => (),
            Form::Reg(_it) => (),
        }
    }
}

/// The same of the methods that compare bytes. A part is searched by a finder, where case counts,
/// and elsewhere by a needle; both were made once. Of a component the delimiters at its ends are
/// dropped.
pub(crate) enum TextForm {
    Str,
    Beg,
    End,
    Sub(Finder<'static>),
    SubFolded(Needle),
    Dir(Needle),
    Dom(Needle),
}

// Written out, so that letting one go is one call in the proofs of callers.
impl Drop for TextForm {
    fn drop(self) {
        match self {
            TextForm::Str => (),
            TextForm::Beg => (),
            TextForm::End => (),
            TextForm::Sub(_it) => (),
            TextForm::SubFolded(_it) => (),
            TextForm::Dir(_it) => (),
            TextForm::Dom(_it) => (),
        }
    }
}
