//! The law of runs, as the contract of a call that does nothing.
ghost use Rattle.std.specs.Prelude.{◌≡◌, ◌<◌, ℕ, List, take};
ghost use Rattle.std.specs.FinMap as finmap;
ghost use Rattle.pj_names.specs.ClassName.{Name};
ghost use Rattle.pj_names.specs.Asking.{Asking};
ghost use Rattle.pj_names.specs.declared.answer.Answer.{Answer};
ghost use Rattle.pj_core.specs.declared.event.Event as events;
ghost use Rattle.pj_core.specs.Events.{run, start};
ghost use Rattle.pj_core.specs.Lawful.{AreLawful, IsAllFinished, IsCold, IsNoOther, claims, count_up};

/// After every list of lawful events that finishes each file, each file has the rows that it means over the world, and
/// each was claimed once, in the order of the numbers. In every state between, the table has the world's answers alone.
pub fn any_order<R, T>()
    ensures cold { (rows_of : R → T) (meaning : ℕ → Asking T) (world : Name → Answer) (files workers : ℕ) (list : List (events.Event R)) → AreLawful rows_of meaning world (start files workers) list → IsAllFinished (run (start files workers) list) → (file : ℕ) → file < files → IsCold rows_of meaning world (run (start files workers) list) file }
    ensures once { (rows_of : R → T) (meaning : ℕ → Asking T) (world : Name → Answer) (files workers : ℕ) (list : List (events.Event R)) → AreLawful rows_of meaning world (start files workers) list → IsAllFinished (run (start files workers) list) → claims (start files workers) list ≡ count_up 0 files }
    ensures table { (rows_of : R → T) (meaning : ℕ → Asking T) (world : Name → Answer) (files workers count : ℕ) (list : List (events.Event R)) → AreLawful rows_of meaning world (start files workers) list → (name : Name) → IsNoOther (finmap.get (run (start files workers) (take count list)).table name) (world name) }
{}
