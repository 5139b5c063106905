use hx_expr::PlanFault;
use hx_outside::PatFault;
use hx_spell::SpellFault;
use hx_text::NoMemory;
use hx_words::WordFault;

/// The code of a converter that can't take what stands before it.
const BAD_TYPE: u32 = 11;

/// The code of a regular expression or a pattern that is none.
pub(crate) const BAD_PATTERN: u32 = 16;

/// Why a line says nothing that can be loaded.
#[derive(Clone, Copy)]
pub(crate) enum LineFault {
    /// The line is refused with this code.
    Refused(u32),
    /// A regular expression is too large.
    TooLarge,
    NoMemory,
}

impl From<NoMemory> for LineFault {
    ghost use Rattle.std.specs.Prelude.{◌≡◌};
    ghost use Rattle.hx_load.specs.declared.line_fault.LineFault.TheVariants as fault;

    ghost from_gives = { λ _ given. given ≡ fault.NoMemory };

    fn from(_: NoMemory) -> LineFault {
        LineFault::NoMemory
    }
}

impl From<WordFault> for LineFault {
    ghost use Rattle.std.specs.Prelude.{◌≡◌};
    ghost use Rattle.hx_load.specs.Loading.{fault_of_words};

    ghost from_gives = { λ fault given. given ≡ fault_of_words fault };

    fn from(fault: WordFault) -> LineFault {
        match fault.code() {
            Some(code) => LineFault::Refused(u32::from(code)),
            None => LineFault::NoMemory,
        }
    }
}

impl From<SpellFault> for LineFault {
    ghost use Rattle.std.specs.Prelude.{◌≡◌};
    ghost use Rattle.hx_load.specs.Loading.{fault_of_spelling};

    ghost from_gives = { λ fault given. given ≡ fault_of_spelling fault };

    fn from(fault: SpellFault) -> LineFault {
        match fault {
            SpellFault::Code(code) => LineFault::Refused(code),
            SpellFault::NoMemory => LineFault::NoMemory,
        }
    }
}

impl From<PlanFault> for LineFault {
    ghost use Rattle.std.specs.Prelude.{◌≡◌};
    ghost use Rattle.hx_load.specs.Loading.{fault_of_plan};

    ghost from_gives = { λ fault given. given ≡ fault_of_plan fault };

    fn from(fault: PlanFault) -> LineFault {
        match fault {
            PlanFault::BadType => LineFault::Refused(BAD_TYPE),
            PlanFault::BadPattern => LineFault::Refused(BAD_PATTERN),
            PlanFault::TooLarge => LineFault::TooLarge,
            PlanFault::NoMemory => LineFault::NoMemory,
        }
    }
}

impl From<PatFault> for LineFault {
    ghost use Rattle.std.specs.Prelude.{◌≡◌};
    ghost use Rattle.hx_load.specs.Loading.{fault_of_pattern};

    ghost from_gives = { λ fault given. given ≡ fault_of_pattern fault };

    fn from(fault: PatFault) -> LineFault {
        match fault {
            PatFault::TooLarge => LineFault::TooLarge,
            PatFault::NoMemory => LineFault::NoMemory,
            _ => LineFault::Refused(BAD_PATTERN),
        }
    }
}
