// A rule on a sheet of either kind.
use sheet::nfa::Nfa;
use sheet::table::Table;

#[derive(Drop)]
pub enum Leaf {
    Table(Table),
    Nfa(Nfa),
}
