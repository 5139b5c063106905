//! Laws of the definitions.
ghost use Rattle.std.specs.Prelude.{◌≡◌, ℕ, List, None, true, false};
ghost use Rattle.hx_record.specs.declared.Event.{Event};
ghost use Rattle.hx_refs.specs.Numbers.{IsNotSearched};
ghost use Rattle.hx_refs.specs.References.{References};
ghost use Rattle.hx_rules.specs.Programs.{Rules};
ghost use Rattle.hx_core.specs.Steps.{refusal_of, world_after};
ghost use Rattle.hx_core.specs.Unseen.{answer_without_count, is_any_event, events_without, is_commit, is_kept, is_left_out, run_of, AreAlikeWorlds, IsNeverCommitted};
ghost use Rattle.hx_core.specs.World.{first_world, World};

/// A version that isn't current and is never committed changes no answer: without the events that
/// work on it alone, all others are answered the same, but for the number in the replies to `show
/// acl` and `show map` without a reference that counts the entries of all versions. Both runs end
/// at the same event that may not stand where it stands, or at none.
pub fn versions_that_are_never_committed_change_no_answer()
    ensures runs { (r v : ℕ) (rules : Rules) (refs : References) (events : List Event)
        → IsNotSearched refs r v → IsNeverCommitted r v (first_world rules refs) events
        → run_of r is_any_event (first_world rules refs)
        (events_without r v (first_world rules refs) events)
        ≡ run_of r (is_kept r v) (first_world rules refs) events }
    ensures alike { (r v : ℕ) (first second : World) (events : List Event)
        → AreAlikeWorlds r v first second → IsNeverCommitted r v first events
        → run_of r is_any_event second (events_without r v first events)
        ≡ run_of r (is_kept r v) first events }
{}

/// An event that works on such a version alone, and isn't a `commit` of it that is done, may stand
/// where it stands, and leads from the first of two worlds that are alike to one that is alike to
/// the second.
pub fn events_on_a_version_change_that_version_alone()
    ensures refusal { (r v : ℕ) (world : World) (event : Event)
        → is_left_out r v world event ≡ true → refusal_of world event ≡ None }
    ensures after { (r v : ℕ) (first second : World) (event : Event)
        → AreAlikeWorlds r v first second → is_left_out r v first event ≡ true
        → is_commit r v first event ≡ false
        → AreAlikeWorlds r v (world_after first event) second }
{}

/// Any other event is refused alike in two worlds that are alike, is answered alike, but for that
/// number, and leads to worlds that are alike.
pub fn other_events_are_answered_alike()
    ensures refusal { (r v : ℕ) (first second : World) (event : Event)
        → AreAlikeWorlds r v first second → is_left_out r v first event ≡ false
        → refusal_of second event ≡ refusal_of first event }
    ensures answer { (r v : ℕ) (first second : World) (event : Event)
        → AreAlikeWorlds r v first second → is_left_out r v first event ≡ false
        → answer_without_count r second event ≡ answer_without_count r first event }
    ensures after { (r v : ℕ) (first second : World) (event : Event)
        → AreAlikeWorlds r v first second → is_left_out r v first event ≡ false
        → AreAlikeWorlds r v (world_after first event) (world_after second event) }
{}
