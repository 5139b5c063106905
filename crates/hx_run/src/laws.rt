//! What follows from the headline.
ghost use Rattle.std.specs.Prelude.{ℕ, List, Option};
ghost use Rattle.hx_core.specs.Unseen.{IsNeverCommitted};
ghost use Rattle.hx_refs.specs.Numbers.{IsNotSearched};
ghost use Rattle.hx_replay.specs.Program.{initial_world};
ghost use Rattle.hx_run.specs.Run.{Headline, Setting};
ghost use Rattle.hx_run.specs.Unseen.{ShowsInNoAnswer};

use hx_core::laws;

/// Where the headline holds, a version of a reference that isn't searched when the configuration is
/// loaded, and that no event of the record commits, shows in no answer: without the events that
/// work on it alone, the others are answered as they were, but for the number in the replies to
/// `show acl` and `show map` without a reference that counts the entries of all versions.
pub fn versions_that_are_never_committed_show_in_no_answer()
    ensures { (given : Setting) (old new : Option (List ℕ)) (done : Headline given old new)
        (r v : ℕ) → IsNotSearched done.program.references r v
        → IsNeverCommitted r v (initial_world done.program) done.events
        → ShowsInNoAnswer r v (initial_world done.program) done.events old new }
{
    laws::versions_that_are_never_committed_change_no_answer();
}
