//! Whether carriers of a show are an instance of a kind.

ghost use Rattle.std.specs.Prelude.{◌≡◌, ◌∷◌, ◌++◌, ◌+◌, [], List, ℕ, ◌≤◌, false, length, slice_index_or};
ghost use Rattle.std.specs.Bool.{OnTrue};
ghost use Rattle.rf_rules.specs.Instances as instances;

use rf_terms::{Kind, order};

/// No carrier stands twice.
pub fn is_distinct(t: &[usize]) -> bool
    ensures { result ≡ instances.is_distinct t.now }
{
    match t {
        [] => true,
        [c, rest @ ..] => !rest.contains(c) && is_distinct(rest),
    }
}

/// The carriers stand in the order of the kind's roles.
pub fn is_in_order(kind: Kind, t: &[usize]) -> bool
    requires { instances.ordered_roles kind ≤ length t.now }
    ensures { result ≡ instances.is_in_order kind t.now }
{
    match order(kind) {
        None => true,
        Some((i, j)) => t[i] < t[j],
    }
}

/// The carriers and one more behind them stand in the order of the kind's roles.
pub fn ends_in_order(kind: Kind, t: &[usize], last: usize) -> bool
    requires { instances.ordered_roles kind ≤ length t.now + 1 }
    ensures { result ≡ instances.is_in_order kind (t.now ++ last ∷ []) }
{
    match order(kind) {
        None => true,
        Some((i, j)) => role(t, last, i) < role(t, last, j),
    }
}

fn role(t: &[usize], last: usize, i: usize) -> usize
    requires { i ≤ length t.now }
    ensures { result ≡ slice_index_or (t.now ++ last ∷ []) i 0 }
{
    if i < t.len() {
        return t[i];
    }
    last
}

/// The carrier stands before one that it has to follow.
pub fn is_out_of_order(kind: Kind, t: &[usize], carrier: usize) -> bool
    ensures { OnTrue result ((u : List ℕ) → instances.is_in_order kind (t.now ++ carrier ∷ u) ≡ false) }
{
    match order(kind) {
        None => false,
        Some((i, j)) => i < t.len() && j == t.len() && carrier <= t[i],
    }
}
