// Classes of states, as a table of labels.
ghost use Rattle.std.specs.Prelude.{◌≡◌, ℕ, ◌+◌, ◌++◌, ◌<◌, ◌≤◌, ◌⊎◌, ◌==◌, drop, false, length, ◌≢◌, replicate, slice_index, take};
ghost use Rattle.register.specs.Labels.{Inside, same};
ghost use Rattle.register.specs.Relations.{Agree, HasClasses, Joins, classes, join};
ghost use Rattle.register.specs.Rings.{Added, IsTable, StaysInClass, Relabelled, Renumbered, Round, Spliced, class_size};

// Two states are of one class exactly if they have one label. `ring` gives the state after a state in its class, round and round;
// `sizes` has the size of each class under its label. Only the first states are there, as many as `states` says; all further entries are as in classes just made, so
// whoever clears, saves or puts back the tables may leave them out. The gaps keep the tables from lying a multiple of 4,096 bytes apart, where a read of the one waits for
// a write to the other.
#[derive(Clone, Copy)]
pub(crate) struct Classes {
    states: usize,
    labels: [u16; 4096],
    gap: [u16; 32],
    ring: [u16; 4096],
    second_gap: [u16; 32],
    sizes: [u16; 4096],
    ghost table: { IsTable states labels gap ring second_gap sizes },
}

// The first N entries of the tables, saved. Whoever saves brings the room, so that nothing is copied twice.
#[derive(Clone, Copy)]
pub(crate) struct Saved<const N: usize> {
    pub(crate) labels: [u16; N],
    pub(crate) ring: [u16; N],
    pub(crate) sizes: [u16; N],
}

// Gives each of the first n states its own number.
fn number(table: &mut [u16; 4096], n: usize)
    requires { n ≤ 4096 }
    ensures long { length table.new ≡ 4096 }
    ensures numbered { Renumbered table.old table.new n }
{
    for state in 0..n {
        table[state] = state as u16;
    }
}

// Makes each of the first n entries 1.
fn fill_ones(table: &mut [u16; 4096], n: usize)
    requires { n ≤ 4096 }
    ensures long { length table.new ≡ 4096 }
    ensures ones { table.new ≡ replicate n 1 ++ drop n table.old }
{
    table[..n].fill(1);
}

// Copies the first n entries of a table.
#[inline(always)]
fn copy_first<const N: usize>(table: &[u16; 4096], entries: &mut [u16; N], n: usize)
    requires within { N ≤ 4096 }
    requires enough { n ≤ N }
    ensures { entries.new ≡ take n table.now ++ drop n entries.old }
{
    entries[..n].copy_from_slice(&table[..n]);
}

// Puts the first n entries back to the beginning of a table.
#[inline(always)]
fn put_first<const N: usize>(table: &mut [u16; 4096], entries: &[u16; N], n: usize)
    requires within { N ≤ 4096 }
    requires enough { n ≤ N }
    ensures { table.new ≡ take n entries.now ++ drop n table.old }
{
    table[..n].copy_from_slice(&entries[..n]);
}

// Gives the class of `start` the label `to`, along the ring.
#[tactic(auto, using(crate::proofs::Walk::walk_begins, crate::proofs::Walk::walk_steps, crate::proofs::Walk::one_fewer))]
fn relabel(labels: &mut [u16; 4096], ring: &[u16; 4096], start: usize, to: u16)
    requires start_below { start < 4096 }
    requires inside { Inside ring.now }
    requires keeps { StaysInClass labels.old ring.now }
    requires round { Round labels.old ring.now }
    requires another { slice_index labels.old start ≢ to }
    ensures long { length labels.new ≡ 4096 }
    ensures relabelled { Relabelled labels.old labels.new start to }
{
    let from = labels[start];
    let mut at = start;
    while labels[at] == from {
        let after = ring[at] as usize;
        labels[at] = to;
        at = after;
    }
}

// The same, with no walk where the class is of one state, as most are.
#[tactic(auto, using(crate::proofs::Walk::alone))]
fn relabel_class(labels: &mut [u16; 4096], ring: &[u16; 4096], start: usize, to: u16)
    requires start_below { start < 4096 }
    requires inside { Inside ring.now }
    requires keeps { StaysInClass labels.old ring.now }
    requires round { Round labels.old ring.now }
    requires another { slice_index labels.old start ≢ to }
    ensures long { length labels.new ≡ 4096 }
    ensures relabelled { Relabelled labels.old labels.new start to }
{
    if ring[start] as usize == start {
        labels[start] = to;
    } else {
        relabel(labels, ring, start, to);
    }
}

// Makes one ring of the rings of p and q, by exchanging what comes after them.
fn splice(ring: &mut [u16; 4096], p: usize, q: usize)
    requires p_below { p < 4096 }
    requires q_below { q < 4096 }
    ensures long { length ring.new ≡ 4096 }
    ensures spliced { Spliced ring.old ring.new p q }
{
    let after_p = ring[p];
    let after_q = ring[q];
    ring[p] = after_q;
    ring[q] = after_p;
}

// Adds the size under `other` to that under `label`.
fn add(sizes: &mut [u16; 4096], label: usize, other: usize)
    requires label_below { label < 4096 }
    requires other_below { other < 4096 }
    requires few { slice_index sizes.old label + slice_index sizes.old other ≤ 4096 }
    ensures long { length sizes.new ≡ 4096 }
    ensures added { Added sizes.old sizes.new label other }
{
    let size = sizes[label] + sizes[other];
    sizes[label] = size;
}

// The number of labels that the first n states have.
#[tactic(auto, using(crate::proofs::Counting::classes_few))]
fn count_labels(labels: &[u16; 4096], n: usize) -> usize
    requires inside { Inside labels.now }
    requires n_within { n ≤ 4096 }
    ensures { result ≡ classes (same labels.now) n }
{
    let mut seen = [false; 4096];
    let mut total = 0usize;
    for i in 0..n {
        let label = labels[i] as usize;
        total += usize::from(!seen[label]);
        seen[label] = true;
    }
    total
}

impl Classes {
    ghost use Rattle.std.specs.Prelude.{◌≡◌};
    ghost use Rattle.register.specs.Saved.{IsSaved};

    // Every state apart from all others.
    #[inline(always)]
    pub(crate) fn new(states: usize) -> Classes
        requires { states ≤ 4096 }
        ensures states { result.states ≡ states }
        ensures apart { Agree 4096 (same result.labels) (λ u v. u == v) }
    {
        let mut labels = [0u16; 4096];
        number(&mut labels, 4096);
        Classes {
            states,
            labels,
            gap: [0; 32],
            ring: labels,
            second_gap: [0; 32],
            sizes: [1; 4096],
        }
    }

    // Every state apart again, in the same table.
    pub(crate) fn clear(&mut self)
        ensures states { self.new.states ≡ self.old.states }
        ensures apart { Agree 4096 (same self.new.labels) (λ u v. u == v) }
    {
        let n = self.states;
        number(&mut self.labels, n);
        number(&mut self.ring, n);
        fill_ones(&mut self.sizes, n);
    }

    // How many states are there.
    #[inline(always)]
    pub(crate) fn states(&self) -> usize
        ensures { result ≡ self.now.states }
    {
        self.states
    }

    // Saves as many entries as there are states.
    #[inline(always)]
    #[tactic(auto, using(crate::proofs::PutBack::first_taken))]
    pub(crate) fn save<const N: usize>(&self, saved: &mut Saved<N>)
        requires within { N ≤ 4096 }
        requires enough { self.now.states ≤ N }
        ensures { IsSaved self.now saved.new }
    {
        let n = self.states;
        copy_first(&self.labels, &mut saved.labels, n);
        copy_first(&self.ring, &mut saved.ring, n);
        copy_first(&self.sizes, &mut saved.sizes, n);
    }

    // Puts saved entries back. Then the classes are those that were saved, if these are of as many states, and no state is left out.
    #[inline(always)]
    pub(crate) fn put_back<const N: usize>(&mut self, saved: &Saved<N>)
        requires within { N ≤ 4096 }
        requires enough { self.old.states ≤ N }
        requires saved { (before : Classes) × (before.states ≡ self.old.states) × IsSaved before saved.now }
        ensures { (before : Classes) → before.states ≡ self.old.states → IsSaved before saved.now → self.new ≡ before }
    {
        let n = self.states;
        put_first(&mut self.labels, &saved.labels, n);
        put_first(&mut self.ring, &saved.ring, n);
        put_first(&mut self.sizes, &saved.sizes, n);
    }

    // Whether p and q are of one class.
    #[inline(always)]
    pub(crate) fn same(&self, p: usize, q: usize) -> bool
        requires p_below { p < 4096 }
        requires q_below { q < 4096 }
        ensures { result ≡ same self.now.labels p q }
    {
        self.labels[p] == self.labels[q]
    }

    // Makes one class of two: gives that of `from`, which is no larger, the label of `to`, and makes one ring and one size of the two.
    #[tactic(auto, using(crate::proofs::Labelling::relabelled_joins, crate::proofs::Sizes::sum_few))]
    #[inline(always)]
    fn merge(&mut self, from: usize, to: usize)
        requires from_there { from < self.old.states }
        requires to_there { to < self.old.states }
        requires apart { same self.old.labels from to ≡ false }
        requires smaller { class_size self.old.labels from ≤ class_size self.old.labels to }
        ensures states { self.new.states ≡ self.old.states }
        ensures joined { Agree 4096 (same self.new.labels) (join (same self.old.labels) from to) }
    {
        let old = self.labels[from] as usize;
        let label = self.labels[to];
        relabel_class(&mut self.labels, &self.ring, from, label);
        splice(&mut self.ring, from, to);
        add(&mut self.sizes, label as usize, old);
    }

    // The two states, that of the smaller class first. Which it is cannot be foretold, so no jump hangs on it.
    #[inline(always)]
    fn smaller_first(&self, p: usize, q: usize) -> (usize, usize)
        requires p_there { p < self.now.states }
        requires q_there { q < self.now.states }
        ensures either { (result ≡ (p, q)) ⊎ (result ≡ (q, p)) }
        ensures smaller { class_size self.now.labels result.0 ≤ class_size self.now.labels result.1 }
    {
        let first = self.labels[p] as usize;
        let second = self.labels[q] as usize;
        if self.sizes[first] < self.sizes[second] {
            (p, q)
        } else {
            (q, p)
        }
    }

    // Makes one class of those of p and q. The smaller one is relabelled.
    #[tactic(auto, using(crate::proofs::Joins::join_swapped))]
    pub(crate) fn join(&mut self, p: usize, q: usize)
        requires p_there { p < self.old.states }
        requires q_there { q < self.old.states }
        ensures states { self.new.states ≡ self.old.states }
        ensures joined { Agree 4096 (same self.new.labels) (join (same self.old.labels) p q) }
    {
        if self.same(p, q) {
            return;
        }
        let (from, to) = self.smaller_first(p, q);
        self.merge(from, to);
    }

    // The number of classes among the first n states.
    pub(crate) fn count(&self, n: usize) -> usize
        requires { n ≤ 4096 }
        ensures counted { result ≡ classes (same self.now.labels) n }
        ensures represented { HasClasses n (Joins (same self.now.labels)) result }
    {
        count_labels(&self.labels, n)
    }
}
