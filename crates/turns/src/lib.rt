//! Which process of a node goes on next.
#![tactic(auto)]

ghost use Rattle.std.specs.Prelude.{◌≡◌, ◌≤◌, ℕ, IfSome, None, length};
ghost use Rattle.turns.specs.Turns.{IsLeastFrom, IsNext, IsReady, least_from, next_in_turn, start_after};
ghost use Rattle.kahn_net.specs.declared.limits.TheConstants.{MAX_PROCESSES};

/// The number that comes after the last one granted: the least one at first. The turn is the first ready process's from here on, and
/// where there is none the first of all.
pub fn start_after(last: Option<u8>) -> usize
    ensures { result ≡ start_after last }
{
    match last {
        Some(last) => usize::from(last) + 1,
        None => 0,
    }
}

/// The least number from this one on of a process that is ready.
fn least_from(start: usize, ready: &[bool]) -> Option<u8>
    requires { length ready.now ≤ MAX_PROCESSES }
    ensures value { result ≡ least_from start ready.now }
    ensures least { IfSome result (IsLeastFrom start ready.now) }
    ensures none { result ≡ None → (number : ℕ) → start ≤ number → ¬ (IsReady ready.now number) }
{
    for number in start..ready.len() {
        if ready[number] {
            return Some(number as u8);
        }
    }
    None
}

/// The process whose turn is next: of those that are ready, the first one past `last`, and where there is none past it the
/// first of all. `last` is `None` where no turn was granted yet. Entry p of `ready` tells whether process p is ready here.
/// `None` where none is.
pub fn next_ready(last: Option<u8>, ready: &[bool]) -> Option<u8>
    requires { length ready.now ≤ MAX_PROCESSES }
    // As a function of what was handed in.
    ensures turn { result ≡ next_in_turn last ready.now }
    // It is ready, and none comes before it in turn.
    ensures next { IfSome result (IsNext last ready.now) }
    // There is no other such process.
    ensures only { IfSome result
        (λ process. (other : ℕ) → IsNext last ready.now other → other ≡ process) }
    // Nothing is answered only where none is ready.
    ensures none { result ≡ None → (process : ℕ) → ¬ (IsReady ready.now process) }
{
    match least_from(start_after(last), ready) {
        Some(process) => Some(process),
        None => least_from(0, ready),
    }
}
