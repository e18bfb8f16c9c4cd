// Worked examples of comparing, computed by the check from the definition.
ghost use Rattle.std.specs.Prelude.{◌≡◌, ◌+◌, ◌*◌, ◌%◌, ◌∷◌, [], ◌==◌, ◌||◌, true, None, Some, slice_index};
ghost use Rattle.automaton.specs.Automata.{automaton};
ghost use Rattle.explore.specs.Search.{explore};
ghost use Rattle.register.specs.Pairs.{kept_alike, pairs};
ghost use Rattle.register.specs.Relations.{classes};

// States 0 and 2 of two rules side by side that keep the words with an even number of the letter 0: no word separates them, and two joins
// say so.
#[tactic(auto, unfolding(explore::specs::Search::spread, explore::specs::Search::taken, explore::specs::Trails::trail_in))]
fn even_twice()
    ensures { let m = automaton 4 2 0 (λ x. x == 0 || x == 2) (λ x a. slice_index (1 ∷ 0 ∷ 0 ∷ 1 ∷ 3 ∷ 2 ∷ 2 ∷ 3 ∷ []) (x * 2 + a)) in
        explore (pairs m (kept_alike m) (λ x y. x == y)) 2 4 (0, 2)
        ≡ record { noted = record { first = 0; second = 2; origin = 0; letter = 0 } ∷ record { first = 1; second = 3; origin = 0; letter = 0 } ∷ []; word = None } }
{}

// The words 01 and 10 separate states 0 and 3, and no shorter word does. Comparing hands over the first of them.
#[tactic(auto, unfolding(explore::specs::Search::spread, explore::specs::Search::taken, explore::specs::Trails::trail_in))]
fn first_of_two()
    ensures { let m = automaton 5 2 0 (λ x. x == 4) (λ x a. slice_index (1 ∷ 2 ∷ 3 ∷ 4 ∷ 4 ∷ 3 ∷ 3 ∷ 3 ∷ 3 ∷ 3 ∷ []) (x * 2 + a)) in
        explore (pairs m (kept_alike m) (λ x y. x == y)) 2 5 (0, 3)
        ≡ record { noted = record { first = 0; second = 3; origin = 0; letter = 0 } ∷ record { first = 1; second = 3; origin = 0; letter = 0 } ∷ record { first = 2; second = 3; origin = 0; letter = 1 } ∷ []; word = Some (0 ∷ 1 ∷ []) } }
{}

// Where 0 and 2 are joined, and 1 and 3, comparing 0 and 2 notes nothing more.
#[tactic(auto, unfolding(explore::specs::Search::spread, explore::specs::Search::taken, explore::specs::Trails::trail_in))]
fn joined_before()
    ensures { let m = automaton 4 2 0 (λ x. x == 0 || x == 2) (λ x a. slice_index (1 ∷ 0 ∷ 0 ∷ 1 ∷ 3 ∷ 2 ∷ 2 ∷ 3 ∷ []) (x * 2 + a)) in
        explore (pairs m (kept_alike m) (λ x y. x % 2 == y % 2)) 2 4 (0, 2) ≡ record { noted = []; word = None } }
{}

// Three states in a ring, all kept: 0 and 1 are joined, then 1 and 2, and so 2 and 0, which is passed over.
#[tactic(auto, unfolding(explore::specs::Search::spread, explore::specs::Search::taken, explore::specs::Trails::trail_in))]
fn joined_on_the_way()
    ensures { let m = automaton 3 1 0 (λ x. true) (λ x a. (x + 1) % 3) in
        explore (pairs m (kept_alike m) (λ x y. x == y)) 1 3 (0, 1)
        ≡ record { noted = record { first = 0; second = 1; origin = 0; letter = 0 } ∷ record { first = 1; second = 2; origin = 0; letter = 0 } ∷ []; word = None } }
{}

// The even and the odd numbers below 5.
#[tactic(auto, unfolding(crate::specs::Relations::classes, crate::specs::Relations::least, crate::specs::Relations::none_below))]
fn two_classes()
    ensures { classes (λ x y. x % 2 == y % 2) 5 ≡ 2 }
{}
