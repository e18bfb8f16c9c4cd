// A rule that is read off the bits of a table sheet.
ghost use Rattle.std.specs.Prelude.{refl};
ghost use Rattle.sheet.specs.Bounds.{tabled_lawful};
ghost use Rattle.sheet.specs.Layout.{Closed, Headed, tabled};
ghost use Rattle.sheet.specs.Opening.{table_form};

use crate::checks::check_table;
use crate::held::Held;
use crate::layout::Rows;
use crate::opening::SheetRule;
use automaton::fault::Fault;
use automaton::rule::Rule;
use automaton::size::Size;

// The bytes of the sheet that was opened last, and the size that its header writes down, which is read once. With no sheet, every field is 0: one state, which is
// dropped, and one letter.
#[derive(Drop)]
pub struct Table {
    bytes: Vec<u8>,
    size: Size,
    ghost closed: { Closed bytes.items },
    ghost headed: { Headed bytes.items size },
}

impl Table {
    ghost use Rattle.std.specs.Prelude.{◌≡◌};

    // The rows of the sheet.
    fn rows(&self) -> Rows<'_>
        ensures bytes { result.bytes.now ≡ self.now.bytes.items }
        ensures size { result.size ≡ self.now.size }
    {
        Rows {
            bytes: &self.bytes,
            size: self.size,
        }
    }
}

impl Rule for Table {
    ghost count = { λ t. (tabled (t.bytes.items)).count };

    ghost letters = { λ t. (tabled (t.bytes.items)).letters };

    ghost start = { λ t. (tabled (t.bytes.items)).start };

    ghost kept = { λ t. (tabled (t.bytes.items)).kept };

    ghost next = { λ t. (tabled (t.bytes.items)).next };

    ghost bounds = { λ t. tabled_lawful t.bytes.items t.closed };

    fn size(&self) -> Size {
        self.size
    }

    fn start_state(&self) -> usize {
        0
    }

    #[inline(always)]
    fn is_kept(&self, state: usize) -> bool {
        self.rows().is_kept(state)
    }

    #[inline(always)]
    fn step(&self, state: usize, letter: usize) -> usize {
        self.rows().next(state, letter)
    }

    #[inline(always)]
    fn row<'s>(&'s self, state: usize, raise: u16, spare: &'s mut [u16; 16]) -> &'s [u16; 16] {
        self.rows().fill(state, raise, spare);
        spare
    }
}

impl Held for Table {
    ghost form = { table_form };

    ghost held = { λ t. t.bytes.items };

    #[tactic(auto, using(crate::specs::Bounds::field_nil))]
    fn empty(bytes: Vec<u8>) -> Table {
        let size = Rows::of(&bytes).size;
        Table { bytes, size }
    }

    #[tactic(auto, using(crate::proofs::Checked::table_checked))]
    fn first_fault(sheet: &[u8]) -> Result<(), Fault> {
        check_table(sheet)
    }

    #[tactic(auto, using(crate::proofs::Strays::none_closed))]
    fn hold(&mut self, sheet: Vec<u8>) {
        self.size = Rows::of(&sheet).size;
        self.bytes = sheet;
    }

    ghost means = { λ t. refl };
}

impl SheetRule for Table {}
