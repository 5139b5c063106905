ghost use Rattle.std.specs.Prelude.{◌≡◌};
ghost use Rattle.hx_calls.specs.Codes.{form_fault};

use hx_text::NoMemory;
use hx_words::ArgFault;
use thiserror::Error;

/// The code of a statement, a fetch, a converter or a flag that isn't supported.
pub const UNSUPPORTED: u32 = 9;

/// The code of a number of arguments, or of an argument, that isn't allowed.
pub const BAD_ARGUMENT: u32 = 10;

/// The code of the name of a header or of a variable that isn't of its form.
pub const BAD_NAME: u32 = 12;

/// The code of a condition that names an ACL which is neither declared before nor predefined.
pub const UNKNOWN_ACL: u32 = 13;

/// The code of words that are no condition.
pub const BAD_CONDITION: u32 = 14;

/// The code of a `%` in a format that neither another `%` nor `[` follows.
pub(crate) const BAD_FORMAT: u32 = 15;

/// The code of a file that is used with one column and with two.
pub(crate) const FILE_KIND: u32 = 17;

/// The code of a statement that stands where it may not.
pub const MISPLACED: u32 = 19;

/// The code of one reference more than a configuration may have.
pub(crate) const TOO_MANY_REFERENCES: u32 = 23;

/// Why words spell no statement.
#[derive(Clone, Copy, Debug, PartialEq, Eq, Error)]
pub enum SpellFault {
    /// What is wrong first from the left has this code.
    #[error("the statement is refused with code {0}")]
    Code(u32),
    /// Memory ran out, which says nothing of the words.
    #[error("out of memory")]
    NoMemory,
}

impl From<NoMemory> for SpellFault {
    ghost use Rattle.std.specs.Prelude.{◌≡◌};
    ghost use Rattle.hx_calls.specs.declared.fault.SpellFault.TheVariants as spell;

    ghost from_gives = { λ _ fault. fault ≡ spell.NoMemory };

    fn from(_: NoMemory) -> SpellFault {
        SpellFault::NoMemory
    }
}

/// The fault of a call whose form is wrong.
pub fn form_fault(fault: ArgFault) -> SpellFault
    ensures { result ≡ form_fault fault }
{
    match fault {
        ArgFault::Unclosed => SpellFault::Code(5),
        ArgFault::AfterClose => SpellFault::Code(6),
        ArgFault::BadEscape => SpellFault::Code(7),
        ArgFault::OpenQuote => SpellFault::Code(8),
        ArgFault::NoMemory => SpellFault::NoMemory,
    }
}
