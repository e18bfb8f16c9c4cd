// Classes of states on examples. The function with a contract ties the cells of comparing to the trails that are written of them.
ghost use Rattle.std.specs.Prelude.{◌≡◌, ◌==◌};
ghost use Rattle.automaton.specs.Automata.{blank};
ghost use Rattle.explore.specs.Search.{way};
ghost use Rattle.explore.specs.Written.{can_write, written};
ghost use Rattle.register.specs.Pairs.{pairs};

use crate::classes::Classes;
use explore::pair_cell::PairCell;
use explore::trail::write_trail;

// The trail of a pair's cell: the trail that comparing speaks of.
fn write_pairs(cells: &[PairCell], at: usize, spare: &mut [u8], word: &mut [u8]) -> Option<usize>
    ensures { word.new ≡ written (can_write cells.now at spare.old word.old at) (way (pairs blank (λ x y. x == y) (λ x y. x == y)) cells.now at) word.old }
{
    write_trail(cells, at, spare, word)
}

// 1 with 2, 3 with 4, and these two pairs; 0 stays alone.
fn joined() -> Classes
    ensures { result.states ≡ 5 }
{
    let mut table = Classes::new(5);
    table.join(1, 2);
    table.join(3, 4);
    table.join(2, 4);
    table
}

// Each state below 100 with the next.
fn chain() -> Classes
    ensures { result.states ≡ 202 }
{
    let mut table = Classes::new(202);
    for i in 0..100usize {
        table.join(i, i + 1);
    }
    table
}

#[test]
fn apart_at_first(rt: HostRuntime) {
    let table = Classes::new(4096);
    assert_eq!(rt; table.count(5), 5);
    assert_eq!(rt; table.count(4096), 4096);
    assert!(rt; table.same(3, 3));
    assert!(rt; !table.same(3, 4));
}

#[test]
fn joins_three_times(rt: HostRuntime) {
    let table = joined();
    assert!(rt; table.same(1, 3));
    assert!(rt; table.same(4, 1));
    assert!(rt; !table.same(0, 1));
    assert_eq!(rt; table.count(5), 2);
    assert_eq!(rt; table.count(3), 2);
    assert_eq!(rt; table.count(0), 0);
}

#[test]
fn joins_joined_ones(rt: HostRuntime) {
    let mut table = joined();
    table.join(1, 4);
    table.join(3, 3);
    assert!(rt; table.same(1, 3));
    assert!(rt; !table.same(0, 1));
    assert_eq!(rt; table.count(5), 2);
}

#[test]
fn joins_a_chain(rt: HostRuntime) {
    let table = chain();
    assert_eq!(rt; table.count(101), 1);
    assert_eq!(rt; table.count(102), 2);
    assert!(rt; table.same(0, 100));
    assert!(rt; !table.same(100, 101));
}

#[test]
fn joins_a_large_class_with_a_small_one(rt: HostRuntime) {
    let mut large_first = chain();
    large_first.join(200, 201);
    let mut small_first = large_first;
    large_first.join(50, 201);
    small_first.join(201, 50);
    assert!(rt; large_first.same(200, 0));
    assert!(rt; small_first.same(200, 0));
    assert_eq!(rt; large_first.count(202), 100);
    assert_eq!(rt; small_first.count(202), 100);
}

#[test]
fn clears(rt: HostRuntime) {
    let mut table = joined();
    table.clear();
    assert_eq!(rt; table.count(5), 5);
    table.join(0, 1);
    assert_eq!(rt; table.count(5), 4);
    assert!(rt; !table.same(1, 2));
}
