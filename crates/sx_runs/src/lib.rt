//! Runs of machines, and when one machine performs as another.
//!
//! A machine is a start, a step and what can be seen of a state: two outputs, a list of events and the ending.
//! `Performs A B` says in two halves that B shows what A shows: all that A shows is shown by B after some number of
//! steps, and B never shows what A does not come to (stuttering bisimulation of outputs, as in the correctness theorems
//! of verified compilers). Every layer of the compiler states its theorem in these words, and they compose.
//!
//! The crate has no code that runs: its functions carry the laws as clauses, so that each is proved once.
#![tactic(auto)]

ghost use Rattle.std.specs.Prelude.{ℕ, ◌+◌, ◌*◌, ◌≤◌, ◌≡◌, Some, None};
ghost use Rattle.sx_runs.specs.Machine.{Machine, after, shown, without_events, with_endings};
ghost use Rattle.sx_runs.specs.Performs.{Shows, Performs, PerformsAll, PerformsWithin};
ghost use Rattle.sx_runs.specs.Simulation.{Coupling, Simulation};

/// Where B performs as A, and C as B, C performs as A: `S`, `T` and `X` are the states of the three machines,
/// `U`, `V` and `W` their events, and `E` their endings. The same with events, and with costs.
pub fn performs_composes<S, T, X, U, V, W, E>()
    ensures outputs { (A : Machine S U E) (B : Machine T V E) (C : Machine X W E) → Performs A B → Performs B C → Performs A C }
    ensures events { (A : Machine S V E) (B : Machine T V E) (C : Machine X V E) → PerformsAll A B → PerformsAll B C → PerformsAll A C }
    ensures cost { (A : Machine S U E) (wa : S → ℕ) (B : Machine T V E) (wb : T → ℕ) (C : Machine X W E) (wc : X → ℕ) → PerformsWithin A wa B wb → PerformsWithin B wb C wc → PerformsWithin A wa C wc }
{}

/// A machine performs as itself; events may be left out; endings may be named anew; an ending that the first machine
/// never has, the second never has.
pub fn performs_keeps<S, T, V, W, E, F>()
    ensures itself { (A : Machine S V E) → Performs A A }
    ensures without_events { (A : Machine S V E) (B : Machine T V E) → PerformsAll A B → Performs A B }
    ensures renamed { (f : E → F) (A : Machine S V E) (B : Machine T W E) → Performs A B → Performs (with_endings f A) (with_endings f B) }
    ensures never { (A : Machine S V E) (B : Machine T W E) (e : E) → Performs A B → ((n : ℕ) → (shown A n).ending ≡ Some e → ⊥) → (m : ℕ) → (shown B m).ending ≡ Some e → ⊥ }
{}

/// A bound on the second machine's steps, where step i of the first costs at most `c + d * i`; and where the second
/// machine has not ended within the bound, the first has not ended.
pub fn work_is_bounded<S, T, V, W, E>()
    ensures bound { (A : Machine S V E) (wa : S → ℕ) (B : Machine T W E) → PerformsWithin A wa B (λ t. 1) → (c d : ℕ) → ((i : ℕ) → wa (after A i) ≤ c + d * i) → (n : ℕ) → (m : ℕ) × (m ≤ (c + d * n) * (n + 1)) × Shows (without_events (shown A n)) (without_events (shown B m)) }
    ensures not_ended { (A : Machine S V E) (B : Machine T W E) (n k : ℕ) → ((m : ℕ) × (m ≤ k) × Shows (without_events (shown A n)) (without_events (shown B m))) → (shown B k).ending ≡ None → (e : E) → (shown A n).ending ≡ Some e → ⊥ }
{}

/// Two machines whose states are coupled.
pub trait Simulates<S, T, V, E> {
    /// The machine that is performed.
    ghost first: { Machine S V E };

    /// The machine that performs.
    ghost second: { Machine T V E };

    /// How their states are coupled.
    ghost coupling: { Coupling S T };

    /// Each step of the first is answered by the second.
    ghost simulates: { Simulation first second coupling };
}

/// The simulation theorem: where each step is answered, the second machine performs as the first, within its cost,
/// and what the coupling says of the time between two answers holds at every step of the second.
pub fn simulation_performs<S, T, V, E, Z: Simulates<S, T, V, E>>()
    ensures performs { PerformsAll Z.first Z.second }
    ensures within { PerformsWithin Z.first Z.coupling.cost Z.second Z.coupling.price }
    ensures meanwhile { (m : ℕ) → (n : ℕ) × Z.coupling.meanwhile (after Z.first n) (after Z.second m) }
{}
