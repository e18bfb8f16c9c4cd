// What a reader hands out.
ghost use Rattle.std.specs.Prelude.{◌≡◌};
ghost use Rattle.catalogue.specs.Entries.{entry_value};

// A lot: its number, and its mark as that part of the catalogue's own bytes.
#[derive(Clone, Copy, PartialEq, Eq, Debug)]
pub struct Lot<'a> {
    pub number: u32,
    pub mark: &'a [u8],
}

// A lot, or the end of the catalogue. It is an enum of its own and no `Option` (docs/DECISIONS.md, "Forms of code"): two
// named cases, each with its number.
#[derive(Clone, Copy, PartialEq, Eq, Debug)]
pub enum Entry<'a> {
    Lot(Lot<'a>),
    End,
}

// The number of the case: 1 for a lot, 0 for the end.
impl From<Entry<'_>> for u8 {
    ghost from_gives = { λ e n. n ≡ (entry_value e).number };

    fn from(entry: Entry<'_>) -> u8 {
        match entry {
            Entry::Lot(_) => 1,
            Entry::End => 0,
        }
    }
}
