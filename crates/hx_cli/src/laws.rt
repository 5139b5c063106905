//! Laws of the definitions.
ghost use Rattle.std.specs.Prelude.{◌≡◌, ◌↔◌, Bool, true, false, Some, IfErr, IfSome, List, Option, ℕ, option_map};
ghost use Rattle.hx_sample.specs.Find.{Entry};
ghost use Rattle.hx_refs.specs.Additions.{addition_fault, Pair};
ghost use Rattle.hx_refs.specs.Changes.{commit_fault, deletion_fault, fault_at, preparation_fault, value_fault};
ghost use Rattle.hx_refs.specs.Naming.{resolution};
ghost use Rattle.hx_refs.specs.References.{References};
ghost use Rattle.hx_refs.specs.declared.limits.Limits.{Limits};
ghost use Rattle.hx_refs.specs.declared.side.Side.{Side};
ghost use Rattle.hx_cli.specs.Commands.{command_of, Spells};
ghost use Rattle.hx_cli.specs.Effects.{HasCode};
ghost use Rattle.hx_cli.specs.Payloads.{line_effect, OpenPayloads};
ghost use Rattle.hx_cli.specs.Unseen.{is_commit_line, is_line_on_version, line_command, line_reply_without_count, AreAlike};
ghost use Rattle.hx_cli.specs.declared.command.Command.{Command};

/// Words spell a command exactly where it is the one that the function gives, so that they spell at
/// most one.
pub fn spelling()
    ensures { (command : Command) (words : List (List ℕ))
        → Spells command words ↔ (command_of words ≡ Some command) }
{}

/// A line that works on a version alone, which isn't searched, and isn't a `commit` of it that is
/// done, leads from the first of two states that are alike to one that is alike to the second.
pub fn lines_on_a_version_change_that_version_alone()
    ensures { (r v session : ℕ) (text : List ℕ) (first second : References)
        (payloads others : OpenPayloads) → AreAlike r v first second payloads others
        → is_line_on_version r v session text payloads first ≡ true
        → is_commit_line r v session text payloads first ≡ false
        → AreAlike r v (line_effect session text payloads first).refs second
        (line_effect session text payloads first).payloads others }
{}

/// Any other line is answered alike in two states that are alike, but for the count of entries that
/// `show acl` and `show map` without a reference tell, and leads to states that are alike.
pub fn other_lines_are_answered_alike()
    ensures reply { (r v session : ℕ) (text : List ℕ) (first second : References)
        (payloads others : OpenPayloads) → AreAlike r v first second payloads others
        → is_line_on_version r v session text payloads first ≡ false
        → option_map (line_reply_without_count second r (line_command session text others))
        (line_effect session text others second).reply
        ≡ option_map (line_reply_without_count first r (line_command session text payloads))
        (line_effect session text payloads first).reply }
    ensures after { (r v session : ℕ) (text : List ℕ) (first second : References)
        (payloads others : OpenPayloads) → AreAlike r v first second payloads others
        → is_line_on_version r v session text payloads first ≡ false
        → AreAlike r v (line_effect session text payloads first).refs
        (line_effect session text others second).refs
        (line_effect session text payloads first).payloads
        (line_effect session text others second).payloads }
{}

/// Whatever a command is refused with has a code, so code 0 says that it was done: a word that
/// names no reference for it, and the fault of an addition, of a removal, of a change of a value,
/// of a preparation and of a commit.
pub fn refusals_have_codes()
    ensures named { (refs : References) (word : List ℕ) (side : Side)
        → IfErr (resolution refs word side) HasCode }
    ensures added { (refs : References) (r : ℕ) (ver : Option ℕ) (pairs : List Pair)
        → IfSome (addition_fault refs r ver pairs) HasCode }
    ensures deleted { (refs : References) (r : ℕ) (ver : Option ℕ) (test : Entry → Bool)
        → IfSome (fault_at refs r (deletion_fault ver test)) HasCode }
    ensures changed { (refs : References) (r : ℕ) (ver : Option ℕ) (test : Entry → Bool)
        (value : List ℕ) → IfSome (fault_at refs r (value_fault ver test value)) HasCode }
    ensures prepared { (refs : References) (r : ℕ) (limits : Limits)
        → IfSome (fault_at refs r (preparation_fault limits)) HasCode }
    ensures committed { (refs : References) (r ver : ℕ)
        → IfSome (fault_at refs r (commit_fault ver)) HasCode }
{}
