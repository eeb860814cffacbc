//! Courses of small units.

ghost use Rattle.std.specs.Prelude.{◌≡◌, ◌∷◌, [], None, Some, negsuc, pos};
ghost use Rattle.hs_types.specs.declared.unit.Body.TheVariants.{Conditional, Independent, Iterated, Loop, Priority, Sequential};
ghost use Rattle.hs_types.specs.declared.unit.Callee.TheVariants as callee;
ghost use Rattle.hs_types.specs.declared.unit.Count.TheVariants as count;
ghost use Rattle.hs_types.specs.Arguments.{no_args};
ghost use Rattle.hs_unit.specs.Courses.{Asks, Done, Failed, Fuel, course};
ghost use Rattle.hs_unit.specs.declared.outcome.Outcome.TheVariants.{Missed};
ghost use Rattle.hs_unit.specs.Samples as sample;
ghost use Rattle.hs_unit.specs.Samples.{first_of, first_with, fuel_left, gave_c, gave_none, giving, rule_call, taking, calls_unit, with_c};

/// Each body, to its end: which calls it makes, and when it succeeds.
pub fn units_tried()
    ensures rule_asks { course [] 4 (callee.Rule 7) no_args 1 [] ≡ Asks 7 no_args }
    ensures rule_missed { course [] 4 (callee.Rule 7) no_args 1 (Missed ∷ [])
        ≡ Failed (fuel_left 0) }
    ensures rule_without_fuel { course [] 4 (callee.Rule 7) no_args 0 [] ≡ Fuel }
    ensures sequence_stops { first_of (Sequential (rule_call 1 ∷ rule_call 2 ∷ []) ∷ []) 5
        (Missed ∷ []) ≡ Failed (fuel_left 4) }
    ensures sequence_goes { first_of (Sequential (rule_call 1 ∷ rule_call 2 ∷ []) ∷ []) 5
        (gave_none ∷ []) ≡ Asks 2 no_args }
    ensures empty_sequence { first_of (Sequential [] ∷ []) 5 [] ≡ Done (fuel_left 5) }
    ensures first_of_priority { first_of (Priority (rule_call 1 ∷ rule_call 2 ∷ []) ∷ []) 5
        (gave_none ∷ []) ≡ Done (fuel_left 4) }
    ensures empty_priority { first_of (Priority [] ∷ []) 5 [] ≡ Failed (fuel_left 5) }
    ensures begins_at_one { first_of
        (Independent (rule_call 1 ∷ rule_call 2 ∷ rule_call 3 ∷ []) ∷ []) 5 [] ≡ Asks 2 no_args }
    ensures and_round { first_of
        (Independent (rule_call 1 ∷ rule_call 2 ∷ rule_call 3 ∷ []) ∷ []) 5 (Missed ∷ Missed ∷ [])
        ≡ Asks 1 no_args }
    ensures empty_independent { first_of (Independent [] ∷ []) 5 [] ≡ Failed (fuel_left 5) }
    ensures no_else { first_of (Conditional (rule_call 1) (rule_call 2) None ∷ []) 5 (Missed ∷ [])
        ≡ Done (fuel_left 4) }
    ensures by_else { first_of
        (Conditional (rule_call 1) (rule_call 2) (Some (rule_call 3)) ∷ []) 5 (Missed ∷ [])
        ≡ Asks 3 no_args }
{}

/// Turns of loops and iterated units, and what they take of the fuel.
pub fn turns_tried()
    ensures loop_ends { first_of (Loop (rule_call 7) ∷ []) 5 (gave_none ∷ Missed ∷ [])
        ≡ Done (fuel_left 1) }
    ensures loop_without_fuel { first_of (Loop (rule_call 7) ∷ []) 3 (gave_none ∷ []) ≡ Fuel }
    ensures turn_and_unit_take_fuel { first_of (Loop calls_unit ∷ Sequential [] ∷ []) 5 [] ≡ Fuel }
    ensures counted { first_of (Iterated (count.Literal (pos 2)) (rule_call 7) ∷ []) 9
        (gave_none ∷ gave_none ∷ []) ≡ Done (fuel_left 5) }
    ensures counted_to_failure { first_of (Iterated (count.Literal (pos 2)) (rule_call 7) ∷ []) 9
        (Missed ∷ []) ≡ Failed (fuel_left 7) }
    ensures counted_below_zero { first_of
        (Iterated (count.Literal (negsuc 0)) (rule_call 7) ∷ []) 9 [] ≡ Done (fuel_left 9) }
    ensures counted_by_argument { first_with (sample.count_arg (pos 1))
        (Iterated (count.Param sample.n) (rule_call 7) ∷ []) 9 (gave_none ∷ [])
        ≡ Done (fuel_left 7) }
    ensures missed_turn { first_of (Loop giving ∷ []) 0 [] ≡ Done (fuel_left 0) }
{}

/// What calls hand over and take back.
pub fn calls_tried()
    ensures handed_over { first_of (Sequential (taking ∷ giving ∷ []) ∷ []) 5 (gave_c ∷ [])
        ≡ Asks 2 with_c }
    ensures lost_again { first_of (Sequential (taking ∷ taking ∷ giving ∷ []) ∷ []) 5
        (gave_c ∷ gave_none ∷ []) ≡ Failed (fuel_left 3) }
    ensures nothing_to_hand_over { first_of (Sequential (giving ∷ []) ∷ []) 0 []
        ≡ Failed (fuel_left 0) }
{}
