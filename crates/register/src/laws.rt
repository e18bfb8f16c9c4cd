// The laws of comparing. A function here does nothing: its contract is a law about definitions, so that the check asks for its proof.
ghost use Rattle.register.specs.Pairs.{AgreeLaw, ApartLaw, KeptLaw, PairsLaw, SmallestLaw};
ghost use Rattle.register.specs.Relations.{ClassesLaw, JoinLaw};

// Comparing two states finds the first word that separates them, and else joins what has to be joined.
pub fn pairs_law()
    ensures { PairsLaw }
{}

// Where each state is joined to itself alone, comparing can begin.
pub fn apart_law()
    ensures { ApartLaw }
{}

// What was joined before is known by which states are joined.
pub fn agree_law()
    ensures { AgreeLaw }
{}

// The smallest right-invariant equivalence that holds some pairs is a right-invariant equivalence.
pub fn smallest_law()
    ensures { SmallestLaw }
{}

// Kept and dropped are outcomes that can be told apart.
#[tactic(auto, using(crate::proofs::Standing::kept_law))]
pub fn kept_law()
    ensures { KeptLaw }
{}

// An equivalence has as many classes as there are states to which no lower state is joined.
#[tactic(auto, using(crate::proofs::Counting::classes_has))]
pub fn classes_law()
    ensures { ClassesLaw }
{}

// Joining two classes of an equivalence gives the smallest one that has it and joins the two states.
#[tactic(auto, using(crate::proofs::Joins::join_law))]
pub fn join_law()
    ensures { JoinLaw }
{}
