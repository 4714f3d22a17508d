// A float as a count.
#![tactic(auto, using(crate::proofs::Ways::counts))]

ghost use Rattle.std.specs.Prelude.{◌≡◌, true, ◌^◌, ◌≤◌};
ghost use Rattle.ieee.specs.Limit.{within};
ghost use Rattle.count.specs.Count.{count_down, count_up, count_limit};

// The whole number below a number of at most 1,048,576. `count_up` has the same shape: one function for both would be handed
// the way to round, and its clauses would have to say what any such way does, which is longer than this match.
pub fn count_down(x: f32) -> u64
    requires { within count_limit x ≡ true }
    ensures { (result ≡ count_down x) × (result ≤ 2 ^ 24) }
{
    match float::split(x) {
        Some(p) if !p.negative => whole::down_at(p.digits, 149 - p.drops),
        _ => 0,
    }
}

// The whole number above it.
pub fn count_up(x: f32) -> u64
    requires { within count_limit x ≡ true }
    ensures { (result ≡ count_up x) × (result ≤ 2 ^ 24) }
{
    match float::split(x) {
        Some(p) if !p.negative => whole::up_at(p.digits, 149 - p.drops),
        _ => 0,
    }
}
