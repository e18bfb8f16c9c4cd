// The laws of the search. A function here does nothing: its contract is a law about definitions, so that the check asks for its proof.
ghost use Rattle.explore.specs.Order.{OrderLaw};
ghost use Rattle.explore.specs.States.{StatesLaw};

// Words are in order by their length, and then by their letters.
#[tactic(auto, using(crate::proofs::Order::order_law))]
pub fn order_law()
    ensures { OrderLaw }
{}

// A search over single states ends within as many cells as there are states, and hands over the first word that leads to a state that ends it.
pub fn states_law()
    ensures { StatesLaw }
{}
