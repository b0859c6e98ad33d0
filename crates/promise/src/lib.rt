//! The order of starts, tries, and what a search promises over any succession of calls.
#![tactic(auto)]

ghost use Rattle.promise.specs.Hits.{Fit, Promised};
ghost use Rattle.circuit.specs.Circuit.{Circuit, Sound};
ghost use Rattle.std.specs.Prelude.{ℕ, ◌≤◌, Bool, List, length};

// The promise, for every pattern, board and fit sieve.
pub fn promise_stands()
    ensures { (p b : Circuit) → Sound p → Sound b → 1 ≤ length p.nets → (keeps : List ℕ → Bool) → Fit keeps p b → Promised p b keeps }
{}
