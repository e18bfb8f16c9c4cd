// A rule of some type, or a combination of rules of this type.
use automaton::rule::Rule;
use combine::complement::Complement;
use combine::difference::Difference;
use combine::disjoint_union::DisjointUnion;
use combine::intersection::Intersection;

#[derive(Drop)]
pub enum Level<R: Rule>
where
    Complement<R>: Rule,
{
    Only(R),
    Complemented(Complement<R>),
    Intersected(Intersection<R, R>),
    United(DisjointUnion<R, R>),
    Subtracted(Difference<R, R>),
}
