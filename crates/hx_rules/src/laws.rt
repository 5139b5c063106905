//! Laws: what the definitions of rules imply.
ghost use Rattle.std.specs.Prelude.{◌≡◌, ◌∷◌, ◌++◌, [], Bool, List, Some, false, true, filter, not, ℕ};
ghost use Rattle.hx_acl.specs.Holds.{Acls};
ghost use Rattle.hx_ast.specs.declared.action.Action.{Action};
ghost use Rattle.hx_ast.specs.declared.action.Action.TheVariants as action;
ghost use Rattle.hx_ast.specs.declared.action.Part.{Part};
ghost use Rattle.hx_ast.specs.declared.statement.Rule.{Rule};
ghost use Rattle.hx_ast.specs.declared.statement.Term.{Term};
ghost use Rattle.hx_fetch.specs.declared.world.Conn.{Conn};
ghost use Rattle.hx_http.specs.Edits.{has_name, with_only_header};
ghost use Rattle.hx_http.specs.Parts.{Parts};
ghost use Rattle.hx_rules.specs.declared.deciding.Deciding.{Deciding};
ghost use Rattle.hx_rules.specs.declared.deciding.Deciding.TheVariants as by;
ghost use Rattle.hx_rules.specs.declared.verdict.Verdict.{Verdict};
ghost use Rattle.hx_rules.specs.declared.verdict.Verdict.TheVariants as verdict;
ghost use Rattle.hx_rules.specs.Deciding.{condition_of, deciding_of};
ghost use Rattle.hx_rules.specs.Failures.{is_taken_in};
ghost use Rattle.hx_rules.specs.Formats.{text_in};
ghost use Rattle.hx_rules.specs.Judged.{IsJudgedIn};
ghost use Rattle.hx_rules.specs.Programs.{Rules};
ghost use Rattle.hx_rules.specs.Reached.{IsReached, IsReachedAt, is_refused, with_rules};
ghost use Rattle.hx_rules.specs.Rewriting.{is_rewrite};
ghost use Rattle.hx_rules.specs.State.{State, TableView};
ghost use Rattle.hx_rules.specs.Verdicts.{action_effect, evaluation, rules_effect, Ends, Goes};

use hx_sample::Tables;

/// A rule of `http-request` whose condition doesn't hold, or with `unless` does, leaves the
/// message, the variables, the tables and the mode as they are. Where it is reached, the verdict of
/// the request and what stands after it are those of the program without this rule.
pub fn rule_not_taken_changes_nothing<T: Tables>()
    ensures state { (view : TableView T.State) (conn : Conn) (acls : Acls) (rule : Rule)
        (state : State T.State) → is_taken_in view conn acls state rule.unless rule.cond ≡ false
        → rules_effect view conn acls (rule ∷ []) state ≡ Goes state }
    ensures evaluation { (view : TableView T.State) (conn : Conn) (program : Rules)
        (origin state : State T.State) (before : List Rule) (rule : Rule) (after : List Rule)
        → IsReached view conn program origin state before rule after
        → is_taken_in view conn program.acls state rule.unless rule.cond ≡ false
        → evaluation view conn program origin
        ≡ evaluation view conn (with_rules (before ++ after) program) origin }
{}

/// A rewrite that is reached, taken and refused ends the request with an error in strict mode: no
/// later rule is judged, and the message, the variables and the tables stand as the rules before it
/// leave them. In the other mode the verdict, and what stands after the request, are those of the
/// program without this rule. Nowhere else does a rewrite give a verdict.
pub fn refused_rewrite_is_an_error_in_strict_mode<T: Tables>()
    ensures strict { (view : TableView T.State) (conn : Conn) (program : Rules)
        (origin state : State T.State) (before : List Rule) (rule : Rule) (after : List Rule)
        → IsReached view conn program origin state before rule after
        → is_taken_in view conn program.acls state rule.unless rule.cond ≡ true
        → is_refused view conn rule.action state ≡ true → state.strict ≡ true
        → evaluation view conn program origin ≡ record { verdict = verdict.Error; state = state } }
    ensures lax { (view : TableView T.State) (conn : Conn) (program : Rules)
        (origin state : State T.State) (before : List Rule) (rule : Rule) (after : List Rule)
        → IsReached view conn program origin state before rule after
        → is_taken_in view conn program.acls state rule.unless rule.cond ≡ true
        → is_refused view conn rule.action state ≡ true → state.strict ≡ false
        → evaluation view conn program origin
        ≡ evaluation view conn (with_rules (before ++ after) program) origin }
    ensures only { (view : TableView T.State) (conn : Conn) (does : Action)
        (state last : State T.State) (given : Verdict) → is_rewrite does ≡ true
        → action_effect view conn does state ≡ Ends given last
        → (is_refused view conn does state ≡ true) × (state.strict ≡ true)
        × (given ≡ verdict.Error) × (last ≡ state) }
{}

/// After a `set-header` that is taken and isn't refused, exactly one header line has the name,
/// whose case doesn't count, and its value is the text of the format. All else of the request
/// stays, the other lines in their order.
pub fn set_header_leaves_one_line<T: Tables>(name: &[u8], value: &[u8])
    ensures effect { (view : TableView T.State) (conn : Conn) (acls : Acls) (rule : Rule)
        (format : List Part) (state : State T.State)
        → rule.action ≡ action.SetHeader name.now format
        → is_taken_in view conn acls state rule.unless rule.cond ≡ true
        → is_refused view conn rule.action state ≡ false
        → rules_effect view conn acls (rule ∷ []) state ≡ Goes (record state {
          message = with_only_header name.now (text_in view conn state format) state.message;
        }) }
    ensures one { (head : Parts)
        → filter (has_name name.now) (with_only_header name.now value.now head).headers
        ≡ (name.now, value.now) ∷ [] }
    ensures others { (head : Parts)
        → filter (λ line. not (has_name name.now line))
        (with_only_header name.now value.now head).headers
        ≡ filter (λ line. not (has_name name.now line)) head.headers }
{}

/// The statement that decides is judged, while the request is evaluated, in the state that stands
/// after the request. No other statement decides, and this one is judged in no other state; where
/// it is a rule of `http-request`, it is reached in no other. Where it has a condition, it is taken
/// by this condition there.
pub fn what_decides_is_judged_at_the_end<T: Tables>()
    ensures always { (view : TableView T.State) (conn : Conn) (program : Rules)
        (origin : State T.State)
        → IsJudgedIn view conn program origin (deciding_of view conn program origin)
        (evaluation view conn program origin).state }
    ensures only { (view : TableView T.State) (conn : Conn) (program : Rules)
        (origin : State T.State) (statement : Deciding) (state : State T.State)
        → IsJudgedIn view conn program origin statement state
        → (statement ≡ deciding_of view conn program origin)
        × (state ≡ (evaluation view conn program origin).state) }
    ensures rule { (view : TableView T.State) (conn : Conn) (program : Rules)
        (origin : State T.State) (position : ℕ) (rule : Rule) (state : State T.State)
        → deciding_of view conn program origin ≡ by.Rule position
        → IsReachedAt view conn program origin position rule state
        → state ≡ (evaluation view conn program origin).state }
    ensures condition { (view : TableView T.State) (conn : Conn) (program : Rules)
        (origin : State T.State) (statement : Deciding) (state : State T.State)
        (unless : Bool) (cond : List (List Term))
        → IsJudgedIn view conn program origin statement state
        → condition_of program statement ≡ Some (unless, cond)
        → is_taken_in view conn program.acls state unless (Some cond) ≡ true }
{}
