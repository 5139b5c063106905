ghost use Rattle.std.specs.Prelude.{◌≡◌, ◌≢◌, ◌≤◌, length, IfErr, IfOk, IsOkUnless, OnErr};
ghost use Rattle.hx_ast.specs.Statements.{IsStatement};
ghost use Rattle.hx_ast.specs.declared.Statement.{Statement};
ghost use Rattle.hx_spell.specs.Heads.{StatementNames};
ghost use Rattle.hx_calls.specs.Codes.{HasLineCode};
ghost use Rattle.hx_calls.specs.Known.{BeginsWith, ReadsAs, Reading, nothing_known};
ghost use Rattle.hx_spell.specs.Lines.{line_of};
ghost use Rattle.hx_spell.specs.Relation.{SpellLine};
ghost use Rattle.hx_calls.specs.TableSpecs.{AreSpecs, reference_specs};

use crate::line::line_of;
use hx_ast::Statement;
use hx_calls::{Knowledge, SpellFault, TableSpecs};
use hx_text::Octets;
use hx_words::Words;
use std::alloc::Global;
use std::marker::Model;

/// Reads the statements of a configuration, line by line. Contracts see it as what the lines so far
/// bring.
pub struct Speller {
    alloc: Global,
    known: Knowledge,
}

// Written out, so that letting one go is one call in the proofs of callers.
impl Drop for Speller {
    fn drop(self) {
        let Speller {
            alloc: _alloc,
            known: _known,
        } = self;
    }
}

impl Model for Speller {
    ghost use Rattle.hx_calls.specs.Known.{Known};
    ghost use Rattle.hx_calls.specs.Sound.{IsSound};

    ghost Value = { Known };

    ghost view = { λ speller. speller.known };

    ghost invariant = { λ speller. IsSound speller.known };
}

impl Speller {
    /// A speller before the first line. Its one fault is `NoMemory`. What it reads is kept in
    /// `alloc`'s memory.
    #[tactic(auto, using(hx_calls::proofs::SoundLemmas::nothing_sound))]
    pub fn new(alloc: Global) -> Result<Speller, SpellFault>
        ensures ok { IfOk result (λ speller. speller ≡ nothing_known) }
        ensures fault { IsOkUnless result SpellFault.NoMemory }
    {
        Ok(Speller {
            alloc,
            known: Knowledge::new(alloc),
        })
    }

    /// The statement of the words, with the state as it was where they are refused.
    #[tactic(auto, using(crate::proofs::SoundLineLemmas::read_sound))]
    fn read(&mut self, number: u64, words: &[Octets]) -> Result<Statement, SpellFault>
        ensures answers { ReadsAs result self.new (line_of number words.now self.old) }
        ensures kept { OnErr result (self.new ≡ self.old) }
    {
        let lengths = self.known.lengths();
        match line_of(&mut self.known, self.alloc, number, words) {
            Ok(statement) => Ok(statement),
            Err(fault) => {
                self.known.shorten(lengths);
                Err(fault)
            }
        }
    }

    /// The statement that the words of the line with this number spell, after the lines before it.
    /// Line numbers count from 1. A line without words is `Plain`, and no statement.
    ///
    /// The statements are `frontend NAME`, `mode http`, `acl NAME CRITERION [FLAG..] [PATTERN..]`,
    /// `http-request ACTION [if|unless CONDITION]` with each variant of `Action`, where
    /// `deny_status` may stand for `status`, `redirect` with the words of that action,
    /// `use_backend FORMAT [if|unless CONDITION]`, `default_backend NAME`, and those that change no
    /// rule: `bind`, `description`, `log`, `log-format`, `maxconn` and `timeout`, and `option` with
    /// `dontlognull`, `http-keep-alive`, `http-server-close` or `httplog`.
    ///
    /// The words are judged from the left, and the text of an expression call by call: of each call
    /// first its name, then its form, then the number of its arguments, and then these. They are
    /// refused with the code of what is wrong first:
    /// - 5 to 8: the form of a call, as `next_call` of hx_words has it, in the order of its faults;
    /// - 9: a statement, an action, an option, a fetch, a converter, a flag or a match method that
    ///   isn't supported;
    /// - 10: a wrong number of words or arguments, or one that isn't of its form;
    /// - 12: the name of an ACL, a frontend, a backend, a header or a variable that isn't of its
    ///   form;
    /// - 13: a condition that names an ACL which is neither declared before nor predefined;
    /// - 14: words after `if` or `unless` that are no condition;
    /// - 15: a `%` in a format that neither another `%` nor `[` follows;
    /// - 17: a file that is used with one column and with two;
    /// - 19: a `frontend` that isn't the first statement, or a second `default_backend`;
    /// - 23: one reference more than 65,536.
    ///
    /// After a refusal, and where memory runs out, the speller is as it was before the line. The
    /// heads that a statement names are known after it, and later lines keep them.
    ///
    /// HAProxy configuration manual 2.4, sections 4.1, 4.2, 7.1, 7.2 and 7.3.
    pub fn line(&mut self, number: u64, words: &Words) -> Result<Statement, SpellFault>
        ensures answers { ReadsAs result self.new (line_of number words.now self.old) }
        ensures kept { OnErr result (self.new ≡ self.old) }
        ensures spelled { IfOk result (λ statement. SpellLine number self.old words.now
            (record { value = statement; known = self.new })) }
        ensures nothing { IfErr result (λ fault. fault ≢ SpellFault.NoMemory
            → (read : Reading Statement) → ¬ SpellLine number self.old words.now read) }
        ensures code { IfErr result (λ fault. fault ≢ SpellFault.NoMemory → HasLineCode fault) }
        ensures allowed { IfOk result IsStatement }
        ensures heads { IfOk result
            (StatementNames self.new.heads (length self.new.references)) }
        ensures extends { BeginsWith self.old.heads self.new.heads }
        ensures grows { length self.old.references ≤ length self.new.references }
    {
        self.read(number, words.as_slice())
    }

    /// What the lines bring: the references and how they are searched, in the order of their first
    /// appearance. It takes no memory.
    #[tactic(auto, using(hx_calls::proofs::SpecsLemmas::sound_tables))]
    pub fn tables(self) -> TableSpecs
        ensures specs { result ≡ reference_specs self }
        ensures sound { AreSpecs result }
    {
        let Speller {
            alloc: _alloc,
            known,
        } = self;
        known.into_tables()
    }
}
