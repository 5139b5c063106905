ghost use Rattle.std.specs.Prelude.{◌≡◌, length, slice_get, option_copied};

use crate::fault::ArgFault;
use hx_text::Octets;
use std::marker::Model;

/// A call: a name, and the arguments in its parentheses. Contracts see it as a record of both.
pub struct Call {
    name: Octets,
    args: Vec<Octets>,
}

// Written out, so that letting one go is one call in the proofs of callers.
impl Drop for Call {
    fn drop(self) {
        let Call {
            name: _name,
            args: _args,
        } = self;
    }
}

impl Model for Call {
    ghost use Rattle.hx_words.specs.CallForm.{CallForm};

    ghost Value = { CallForm };

    ghost view = { λ call. record { name = call.name; args = call.args.items } };
}

impl Call {
    ghost use Rattle.hx_words.specs.CallForm.{CallForm};

    pub(crate) fn new(name: Octets, args: Vec<Octets>) -> Call
        ensures { result ≡ record { name = name; args = args.items } }
    {
        Call { name, args }
    }

    pub(crate) fn into_name(self) -> Octets
        ensures { result ≡ self.name }
    {
        let Call { name, args: _ } = self;
        name
    }

    /// The bytes of the name, which may be none.
    pub fn name(&self) -> &[u8]
        ensures { result.now ≡ self.now.name }
    {
        self.name.as_slice()
    }

    /// How many arguments there are.
    pub fn len(&self) -> usize
        ensures { result ≡ length self.now.args }
    {
        self.args.len()
    }

    /// The argument at position `i`; `None` exactly where `i` isn't below `len`.
    pub fn arg(&self, i: usize) -> Option<&[u8]>
        ensures { option_copied result ≡ slice_get self.now.args i }
    {
        let arg = self.args.get(i)?;
        Some(arg.as_slice())
    }
}

/// What a text of calls begins with.
#[derive(Drop)]
pub enum CallStep<'a> {
    /// The last call, and what follows the stop byte, nothing where the text ends.
    Last { call: Call, rest: &'a [u8] },
    /// A call with a comma after it, and what follows the comma.
    More { call: Call, rest: &'a [u8] },
    /// The name of a call, and what is wrong after the name.
    Faulty { name: Octets, fault: ArgFault },
}
