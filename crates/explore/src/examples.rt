// Worked examples of the search, computed by the check from the definition.
ghost use Rattle.std.specs.Prelude.{◌≡◌, ◌+◌, ◌*◌, ◌∷◌, [], ◌==◌, None, Some, slice_index};
ghost use Rattle.automaton.specs.Automata.{automaton};
ghost use Rattle.explore.specs.Search.{explore};
ghost use Rattle.explore.specs.States.{states};

// The words 01 and 10 lead from state 0 to state 4, and no shorter word does. The search hands over the first of them.
#[tactic(auto, unfolding(crate::specs::Search::spread, crate::specs::Search::taken, crate::specs::Trails::trail_in))]
fn first_of_two()
    ensures { let m = automaton 5 2 0 (λ x. x == 4) (λ x a. slice_index (1 ∷ 2 ∷ 3 ∷ 4 ∷ 4 ∷ 3 ∷ 3 ∷ 3 ∷ 3 ∷ 3 ∷ []) (x * 2 + a)) in
        explore (states m m.kept) 2 5 0
        ≡ record { noted = record { state = 0; origin = 0; letter = 0 } ∷ record { state = 1; origin = 0; letter = 0 } ∷ record { state = 2; origin = 0; letter = 1 } ∷ record { state = 3; origin = 1; letter = 0 } ∷ []; word = Some (0 ∷ 1 ∷ []) } }
{}

// State 3 leads to itself alone, so nothing is found from there.
#[tactic(auto, unfolding(crate::specs::Search::spread, crate::specs::Search::taken, crate::specs::Trails::trail_in))]
fn nothing_found()
    ensures { let m = automaton 5 2 0 (λ x. x == 4) (λ x a. slice_index (1 ∷ 2 ∷ 3 ∷ 4 ∷ 4 ∷ 3 ∷ 3 ∷ 3 ∷ 3 ∷ 3 ∷ []) (x * 2 + a)) in
        explore (states m m.kept) 2 5 3
        ≡ record { noted = record { state = 3; origin = 0; letter = 0 } ∷ []; word = None } }
{}

// State 4 ends the search at once, with the empty word and no cell.
#[tactic(auto, unfolding(crate::specs::Search::spread, crate::specs::Search::taken, crate::specs::Trails::trail_in))]
fn found_at_once()
    ensures { let m = automaton 5 2 0 (λ x. x == 4) (λ x a. slice_index (1 ∷ 2 ∷ 3 ∷ 4 ∷ 4 ∷ 3 ∷ 3 ∷ 3 ∷ 3 ∷ 3 ∷ []) (x * 2 + a)) in
        explore (states m m.kept) 2 5 4 ≡ record { noted = []; word = Some [] } }
{}
