// Free variables, and the one of them that scores highest.
ghost use Rattle.std.specs.Prelude.{◌≡◌, ◌↔◌, ◌+◌, ◌≤◌, ◌<◌, ℕ, IfNone, IfSome, IsTrue};
ghost use Rattle.search_guides.specs.Picks.{IsDecision, IsFound, IsFree, IsUndecided, picked, score_in};

use hrt_base::{Lit, Value};
use pb_propagate::Engine;

/// Whether a number is that of a free variable.
pub(crate) fn is_free(engine: &Engine, var: u32) -> bool
    ensures { IsTrue result ↔ IsFree engine.now var }
{
    if var == 0 || var > engine.vars() {
        return false;
    }
    match engine.value(var) {
        Value::Free => true,
        Value::True | Value::False => false,
    }
}

// The score of a variable, 0 for one that has none.
fn score(scores: &[u32], var: u32) -> u32
    ensures { result ≡ score_in scores.now var }
{
    if var == 0 {
        return 0;
    }
    match scores.get(var as usize - 1) {
        Some(score) => *score,
        None => 0,
    }
}

/// The free variable of the highest score, and the least of those, where some variable is free.
pub(crate) fn highest(engine: &Engine, scores: &[u32]) -> Option<u32>
    ensures { IsFound engine.now (score_in scores.now) engine.now.vars result }
{
    let mut best = None;
    for before in 0..engine.vars() {
        best = better(engine, scores, best, before, before + 1);
    }
    best
}

// What is best among so many variables and the next one.
fn better(engine: &Engine, scores: &[u32], best: Option<u32>, before: u32, var: u32) -> Option<u32>
    requires next { var ≡ before + 1 }
    requires more { before < engine.now.vars }
    requires best { IsFound engine.now (score_in scores.now) before best }
    ensures { IsFound engine.now (score_in scores.now) var result }
{
    if !is_free(engine, var) {
        return best;
    }
    let Some(least) = best else {
        return Some(var);
    };
    if score(scores, least) < score(scores, var) {
        Some(var)
    } else {
        Some(least)
    }
}

/// The least free variable, where some variable is free.
pub(crate) fn least(engine: &Engine) -> Option<u32>
    ensures { IsFound engine.now (λ _. 0) engine.now.vars result }
{
    for before in 0..engine.vars() {
        if is_free(engine, before + 1) {
            return Some(before + 1);
        }
    }
    None
}

/// The literal to decide: what was picked, where its variable is one of the engine's and free, and else the least free variable
/// as true. None only where no variable is free.
pub fn decision(engine: &Engine, pick: Option<Lit>) -> Option<Lit>
    ensures decision { IsDecision engine.now pick result }
    ensures lawful { IfSome result (IsUndecided engine.now) }
    ensures none { IfNone result ((v : ℕ) → IsFree engine.now v → ⊥) }
{
    if let Some(lit) = pick {
        if is_free(engine, lit.var) {
            return Some(lit);
        }
    }
    decided(least(engine))
}

/// The literal that makes a variable true.
pub(crate) fn decided(var: Option<u32>) -> Option<Lit>
    ensures { result ≡ picked var }
{
    match var {
        Some(var) => Some(Lit { var, neg: false }),
        None => None,
    }
}
