//! What the definitions come to on small networks, computed by the prover, with values worked out by hand. A function
//! here does nothing, and its contract is what is computed.
#![tactic(auto)]

ghost use Rattle.std.specs.Prelude.{◌≡◌, pos, negsuc, [], ◌∷◌, ◌++◌};
ghost use Rattle.kahn_net.specs.Common.{approximation, Belongs, IsReached, point_at, StandsAt};
ghost use Rattle.kahn_net.specs.Processes.{At};
ghost use Rattle.kahn_net_tests.specs.Examples.{summing_code, sum_net, sum_inputs, sum_solution};
ghost use Rattle.kahn_net_tests.specs.Examples.{at_the_end, pair_net, pair_inputs, one_two, tens};
ghost use Rattle.kahn_net_tests.specs.Examples.{cycle_after, zeros, ones, zero_one};

/// The running sum of 1 2 3 is 1 3 6, from the first approximation on, which is then at rest.
pub fn running_sum_by_definition()
    ensures at_first { approximation sum_net sum_inputs 0 ≡ sum_inputs }
    ensures then { approximation sum_net sum_inputs 1 ≡ sum_solution }
    ensures for_ever { approximation sum_net sum_inputs 2 ≡ sum_solution }
    ensures reached { IsReached sum_net sum_inputs 1 }
    ensures belongs { Belongs sum_net sum_inputs 1 2 (pos 6) }
{}

/// After its first act the running sum stands at its put, and after all six at its get.
pub fn standing_by_definition()
    ensures at_first { StandsAt (summing_code 0 1) sum_inputs 0 (At (point_at 0 []) (pos 0 ∷ pos 0 ∷ [])) }
    ensures then { StandsAt (summing_code 0 1) sum_inputs 1 (At (point_at 1 []) (pos 1 ∷ pos 1 ∷ [])) }
    ensures at_last { StandsAt (summing_code 0 1) sum_inputs 6 (At (point_at 0 []) (pos 6 ∷ pos 3 ∷ [])) }
{}

/// A sum that leaves the range wraps round.
pub fn wrapping_sum_by_definition()
    ensures { approximation sum_net (at_the_end ∷ [] ∷ []) 1
        ≡ at_the_end ∷ (pos 9223372036854775807 ∷ negsuc 9223372036854775807 ∷ []) ∷ [] }
{}

/// Items of two inputs, added in pairs by one process and summed up by another: an input's last
/// item waits for a partner.
pub fn pair_by_definition()
    ensures first { approximation pair_net pair_inputs 1
        ≡ one_two ∷ tens ∷ (pos 11 ∷ pos 22 ∷ []) ∷ [] ∷ [] }
    ensures second { approximation pair_net pair_inputs 2
        ≡ one_two ∷ tens ∷ (pos 11 ∷ pos 22 ∷ []) ∷ (pos 11 ∷ pos 33 ∷ []) ∷ [] }
{}

/// Kahn's example: the two first items go to Y and Z, on to X and out, over T1 and T2 back to Y and
/// Z, and out again.
pub fn cycle_by_definition()
    ensures first { cycle_after 1 ≡ [] ∷ zeros 1 ∷ ones 1 ∷ [] ∷ [] ∷ [] ∷ [] }
    ensures second { cycle_after 2 ≡ zero_one ∷ zeros 1 ∷ ones 1 ∷ [] ∷ [] ∷ zero_one ∷ [] }
    ensures third { cycle_after 3 ≡ zero_one ∷ zeros 1 ∷ ones 1 ∷ zeros 1 ∷ ones 1 ∷ zero_one ∷ [] }
    ensures fourth { cycle_after 4
        ≡ zero_one ∷ zeros 2 ∷ ones 2 ∷ zeros 1 ∷ ones 1 ∷ zero_one ∷ [] }
    ensures fifth { cycle_after 5
        ≡ (zero_one ++ zero_one) ∷ zeros 2 ∷ ones 2 ∷ zeros 1 ∷ ones 1 ∷
        (zero_one ++ zero_one) ∷ [] }
{}
