//! What ties explained statements, and their numbers, to what is loaded of the same configuration:
//! laws of the definitions, the contracts of functions that do nothing.
ghost use Rattle.std.specs.Prelude.{◌≡◌, ℕ, List};
ghost use Rattle.hx_base.specs.Pairs.{NamedBytes};
ghost use Rattle.hx_core.specs.World.{refs_view};
ghost use Rattle.hx_fetch.specs.declared.Conn.{Conn};
ghost use Rattle.hx_filling.specs.Refusals.{Refusal};
ghost use Rattle.hx_load.specs.Loads.{GivesProgram, IsRefusedByLines, LinesBring};
ghost use Rattle.hx_refs.specs.References.{References};
ghost use Rattle.hx_refs.specs.declared.Limits.{Limits};
ghost use Rattle.hx_rules.specs.Programs.{Rules};
ghost use Rattle.hx_rules.specs.State.{State};
ghost use Rattle.hx_rules.specs.Verdicts.{evaluation};
ghost use Rattle.hx_trace.specs.Statements.{LinesNumber, NumberedRules};
ghost use Rattle.hx_trace.specs.Why.{cause_of, explained, head_numbers, told_why, why_text};
ghost use Rattle.hx_words.specs.Variable.{Env};

/// The lines of a configuration of which a program is loaded have no fault, nor have those that
/// bring one. So they are as `Explained::new` asks: it follows that their first fault, if they had
/// one, would be a pattern's.
pub fn what_loads_has_no_fault_in_its_lines()
    ensures brought { (env : Env) (limits : Limits) (config : List ℕ)
        (program : Rules) (references : References)
        → LinesBring env limits config program references
        → (refusal : Refusal) → ¬ (IsRefusedByLines env config refusal) }
    ensures loaded { (env : Env) (limits : Limits) (files : NamedBytes) (config : List ℕ)
        (program : Rules) (references : References)
        → GivesProgram env limits files config program references
        → (refusal : Refusal) → ¬ (IsRefusedByLines env config refusal) }
{}

/// The statements that a configuration's lines give are its program as it is loaded, and their
/// numbers those of the references that are loaded, whatever its files hold and under any limits.
pub fn the_numbers_are_those_of_references()
    ensures { (env : Env) (limits : Limits) (files : NamedBytes) (config : List ℕ)
        (given : NumberedRules) (program : Rules) (references : References)
        → LinesNumber env config given
        → GivesProgram env limits files config program references
        → (given.program ≡ program) × (given.numbers ≡ head_numbers references) }
{}

/// Requests change no number of a reference, so what an engine's explainer tells of a request is
/// what is explained of it, with the numbers that the references had before the request.
pub fn requests_change_no_number()
    ensures numbers { (conn : Conn) (program : Rules) (state : State References)
        → head_numbers (evaluation refs_view conn program state).state.tables
        ≡ head_numbers state.tables }
    ensures told { (conn : Conn) (given : NumberedRules) (state : State References)
        → given.numbers ≡ head_numbers state.tables
        → explained.judged given.program conn state
        ≡ why_text (told_why given.numbers (cause_of refs_view conn given.program state)) }
{}
