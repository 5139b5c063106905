//! What pins the loading of a configuration: laws of its definitions, the contracts of functions
//! that do nothing.
ghost use Rattle.std.specs.Prelude.{◌≡◌, ◌≤◌, ℕ, List, map, take};
ghost use Rattle.hx_base.specs.Pairs.{NamedBytes};
ghost use Rattle.hx_refs.specs.References.{References};
ghost use Rattle.hx_refs.specs.declared.Limits.{Limits};
ghost use Rattle.hx_rules.specs.Programs.{Rules};
ghost use Rattle.hx_calls.specs.Known.{nothing_known};
ghost use Rattle.hx_calls.specs.TableSpecs.{AreSpecs, ReferenceSpecs};
ghost use Rattle.hx_calls.specs.declared.TableSpec.{TableSpec};
ghost use Rattle.hx_words.specs.Variable.{Env};
ghost use Rattle.hx_filling.specs.References.{AreFilled, declared_references, table_head};
ghost use Rattle.hx_load.specs.Configuration.{IsFirstRefused, Refusal, lines_of};
ghost use Rattle.hx_load.specs.Loads.{GivesProgram, Loading, Loads, loaded};
ghost use Rattle.hx_load.specs.Loads.Loading.{Refused};

/// A configuration loads as what the function says, and as nothing else, under any files and
/// limits. So it gives one program at most, and one list of references.
pub fn loading()
    ensures loads { (env : Env) (limits : Limits) (files : NamedBytes) (config : List ℕ)
        → Loads env limits files config (loaded env limits files config) }
    ensures only { (env : Env) (limits : Limits) (files : NamedBytes) (config : List ℕ)
        (other : Loading) → Loads env limits files config other
        → other ≡ loaded env limits files config }
    ensures one { (env : Env) (limits : Limits) (files : NamedBytes) (config : List ℕ)
        (program other : Rules) (references others : References)
        → GivesProgram env limits files config program references
        → GivesProgram env limits files config other others
        → (program ≡ other) × (references ≡ others) }
{}

/// A head's number means the same in the statements of a configuration and in its references: the
/// heads of the references are those that the lines bring, in their order, and entries change none
/// of them.
pub fn heads_are_those_of_the_lines()
    ensures declared { (limits : Limits) (given : ReferenceSpecs) → AreSpecs given
        → (declared_references limits given.specs given.heads).heads ≡ map table_head given.heads }
    ensures filled { (files : NamedBytes) (specs : List TableSpec) (before after : References)
        → AreFilled files 0 specs before after → after.heads ≡ before.heads }
{}

/// A configuration that is refused has a code from 1 to 23, whatever its files hold and whatever
/// the limits are.
pub fn refusals_have_codes()
    ensures { (env : Env) (limits : Limits) (files : NamedBytes) (config : List ℕ)
        (refusal : Refusal) → Loads env limits files config (Refused refusal)
        → (1 ≤ refusal.code) × (refusal.code ≤ 23) }
{}

/// The first line with a fault decides its refusal with the lines above it, whatever stands below:
/// a configuration with the same lines up to it is refused there too, with the same code.
pub fn a_refusal_is_decided_by_the_lines_up_to_it()
    ensures { (env : Env) (config other : List ℕ) (refusal : Refusal)
        → IsFirstRefused env 1 (lines_of config) nothing_known refusal
        → take refusal.line (lines_of other) ≡ take refusal.line (lines_of config)
        → IsFirstRefused env 1 (lines_of other) nothing_known refusal }
{}
