// Worked examples, computed by the check from the definitions.
ghost use Rattle.std.specs.Prelude.{◌≡◌, ◌+◌, ◌*◌, ◌∷◌, [], ◌==◌, ◌||◌, None, Some, slice_index};
ghost use Rattle.automaton.specs.Automata.{automaton, blank};
ghost use Rattle.combine.specs.Combined.{complement, intersection};
ghost use Rattle.search.specs.FirstKept.{first_kept, found};
ghost use Rattle.search.specs.Relations.{related};
ghost use Rattle.search.specs.declared.relation.Relation.TheVariants.{Equal, FirstWithin, Neither, SecondWithin};

// The words with an even number of the letter 0: the empty word is kept, and nothing is noted.
#[tactic(auto, unfolding(explore::specs::Search::spread, explore::specs::Search::taken, explore::specs::Trails::trail_in))]
fn even_kept()
    ensures { let even = automaton 2 2 0 (λ x. x == 0) (λ x a. slice_index (1 ∷ 0 ∷ 0 ∷ 1 ∷ []) (x * 2 + a)) in
        first_kept even ≡ record { length = Some 0; noted = 0 } }
{}

// Those with an odd number: the first is 0.
#[tactic(auto, unfolding(explore::specs::Search::spread, explore::specs::Search::taken, explore::specs::Trails::trail_in))]
fn odd_kept()
    ensures { let even = automaton 2 2 0 (λ x. x == 0) (λ x a. slice_index (1 ∷ 0 ∷ 0 ∷ 1 ∷ []) (x * 2 + a)) in
        first_kept (complement even) ≡ record { length = Some 1; noted = 1 } }
{}

// The blank automaton keeps nothing.
#[tactic(auto, unfolding(explore::specs::Search::spread, explore::specs::Search::taken, explore::specs::Trails::trail_in))]
fn nothing_kept()
    ensures { first_kept blank ≡ record { length = None; noted = 1 } }
{}

// An odd number of the letter 0, and as many of the letter 1 as leave 2 modulo 3: the first word is 011.
#[tactic(auto, unfolding(explore::specs::Search::spread, explore::specs::Search::taken, explore::specs::Trails::trail_in))]
fn first_of_three()
    ensures { let odd = automaton 2 2 0 (λ x. x == 1) (λ x a. slice_index (1 ∷ 0 ∷ 0 ∷ 1 ∷ []) (x * 2 + a)) in
        let two = automaton 3 2 0 (λ x. x == 2) (λ x a. slice_index (0 ∷ 1 ∷ 1 ∷ 2 ∷ 2 ∷ 0 ∷ []) (x * 2 + a)) in
        found (intersection odd two)
        ≡ record { noted = record { state = 0; origin = 0; letter = 0 } ∷ record { state = 3; origin = 0; letter = 0 } ∷ record { state = 1; origin = 0; letter = 1 } ∷ record { state = 4; origin = 1; letter = 1 } ∷ record { state = 2; origin = 2; letter = 1 } ∷ []; word = Some (0 ∷ 1 ∷ 1 ∷ []) } }
{}

// The words in which the number of the letter 0 is even and those in which it is a multiple of 3: 00 is only of the first kind, and 000 of the second.
#[tactic(auto, unfolding(explore::specs::Search::spread, explore::specs::Search::taken, explore::specs::Trails::trail_in))]
fn neither_within()
    ensures { let even = automaton 2 1 0 (λ x. x == 0) (λ x a. slice_index (1 ∷ 0 ∷ []) x) in
        let third = automaton 3 1 0 (λ x. x == 0) (λ x a. slice_index (1 ∷ 2 ∷ 0 ∷ []) x) in
        related even third ≡ Neither 2 3 }
{}

// The multiples of 4 are even.
#[tactic(auto, unfolding(explore::specs::Search::spread, explore::specs::Search::taken, explore::specs::Trails::trail_in))]
fn first_within()
    ensures { let even = automaton 2 1 0 (λ x. x == 0) (λ x a. slice_index (1 ∷ 0 ∷ []) x) in
        let fourth = automaton 4 1 0 (λ x. x == 0) (λ x a. slice_index (1 ∷ 2 ∷ 3 ∷ 0 ∷ []) x) in
        related fourth even ≡ FirstWithin 2 }
{}

#[tactic(auto, unfolding(explore::specs::Search::spread, explore::specs::Search::taken, explore::specs::Trails::trail_in))]
fn second_within()
    ensures { let even = automaton 2 1 0 (λ x. x == 0) (λ x a. slice_index (1 ∷ 0 ∷ []) x) in
        let fourth = automaton 4 1 0 (λ x. x == 0) (λ x a. slice_index (1 ∷ 2 ∷ 3 ∷ 0 ∷ []) x) in
        related even fourth ≡ SecondWithin 2 }
{}

// Two automata for the even numbers, of two states and of four.
#[tactic(auto, unfolding(explore::specs::Search::spread, explore::specs::Search::taken, explore::specs::Trails::trail_in))]
fn equal()
    ensures { let even = automaton 2 1 0 (λ x. x == 0) (λ x a. slice_index (1 ∷ 0 ∷ []) x) in
        let fourth = automaton 4 1 0 (λ x. x == 0 || x == 2) (λ x a. slice_index (1 ∷ 2 ∷ 3 ∷ 0 ∷ []) x) in
        related even fourth ≡ Equal }
{}
