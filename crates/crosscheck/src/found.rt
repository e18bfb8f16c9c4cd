// What searches came to, as it is shown.
use search::first_kept::FirstKept;
use search::relation::Relation;
use std::fmt;

// A length, or that there is none.
#[derive(Clone, Copy)]
pub struct Length(pub Option<usize>);

impl fmt::Display for Length {
    fn fmt<W: fmt::Write>(&self, f: &mut fmt::Formatter<W>) -> fmt::Result {
        match self.0 {
            Some(length) => write!(f, "{length}"),
            None => f.write_str("none"),
        }
    }
}

// The first kept word, and the states noted.
#[derive(Clone, Copy)]
pub struct Found(pub FirstKept);

impl fmt::Display for Found {
    fn fmt<W: fmt::Write>(&self, f: &mut fmt::Formatter<W>) -> fmt::Result {
        let length = Length(self.0.length);
        let noted = self.0.noted;
        write!(f, "{length} {noted}")
    }
}

// A relation, by its number and the lengths of its words.
#[derive(Clone, Copy)]
pub struct Related(pub Relation);

impl fmt::Display for Related {
    fn fmt<W: fmt::Write>(&self, f: &mut fmt::Formatter<W>) -> fmt::Result {
        let number = u8::from(self.0);
        let (first, second) = match self.0 {
            Relation::Equal => (None, None),
            Relation::FirstWithin { only_second } => (None, Some(only_second)),
            Relation::SecondWithin { only_first } => (Some(only_first), None),
            Relation::Neither {
                only_first,
                only_second,
            } => (Some(only_first), Some(only_second)),
        };
        let only_first = Length(first);
        let only_second = Length(second);
        write!(f, "{number} {only_first} {only_second}")
    }
}
