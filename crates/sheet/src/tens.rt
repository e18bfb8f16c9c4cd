// Fields of ten bits that stand one behind the other, as the next states of a row do. Four of them stand in eight bytes, which are one
// load. They are put into four lanes of sixteen bits, as the places of a row are, so that one sum raises four and one test judges them.
ghost use Rattle.std.specs.Prelude.{◌≡◌, ℕ, ◌+◌, ◌-◌, ◌*◌, ◌/◌, ◌%◌, ◌^◌, ◌<◌, ◌≤◌, length, slice_index, true};
ghost use Rattle.sheet.specs.Bits.{lane, ten};

use crate::bits::eight_there;
use automaton::size::Size;

// A one in each lane.
const ONES: u64 = 0x0001_0001_0001_0001;

// Four fields of ten bits, one behind the other from the bit `at` on, as the lowest forty bits of a number. All stand in the eight bytes
// from `first` on.
#[tactic(auto, using(crate::proofs::Runs::tens_read))]
fn four_tens(bytes: &[u8], first: usize, at: usize) -> u64
    requires there { first + 8 ≤ length bytes.now }
    requires begins { 8 * first ≤ at }
    requires ends { at ≤ 8 * first + 24 }
    ensures { (j : ℕ) → j < 4 → result / 2 ^ (30 - 10 * j) % 1024 ≡ ten bytes.now at j }
{
    eight_there(bytes, first) >> (24 - (at - 8 * first) as u32)
}

// The lowest forty bits of a number, ten to a lane, each raised.
#[tactic(auto, using(crate::proofs::Lanes::apart))]
fn raised_apart(tens: u64, raise: u16) -> u64
    requires { raise ≤ 64512 }
    ensures { (j : ℕ) → j < 4 → lane result j ≡ raise + tens / 2 ^ (30 - 10 * j) % 1024 }
{
    let first = (tens >> 20) % 1048576;
    let second = tens % 1048576;
    let apart = first / 1024
        + first % 1024 * 65536
        + second / 1024 * 4294967296
        + second % 1024 * 281474976710656;
    apart + u64::from(raise) * ONES
}

// Four such fields, each raised and in a lane.
#[inline(always)]
fn lanes_in(bytes: &[u8], first: usize, at: usize, raise: u16) -> u64
    requires there { first + 8 ≤ length bytes.now }
    requires begins { 8 * first ≤ at }
    requires ends { at ≤ 8 * first + 24 }
    requires low { raise ≤ 64512 }
    ensures { (j : ℕ) → j < 4 → lane result j ≡ raise + ten bytes.now at j }
{
    raised_apart(four_tens(bytes, first, at), raise)
}

// The same, out of the eight bytes from where the first field begins.
#[inline(always)]
fn four_lanes(bytes: &[u8], at: usize, raise: u16) -> u64
    requires room { at / 8 + 8 ≤ length bytes.now }
    requires low { raise ≤ 64512 }
    ensures { (j : ℕ) → j < 4 → lane result j ≡ raise + ten bytes.now at j }
{
    lanes_in(bytes, at / 8, at, raise)
}

// The same where the bytes may end before, out of the last eight then.
#[inline(always)]
fn last_lanes(bytes: &[u8], at: usize, raise: u16) -> u64
    requires some { 8 ≤ length bytes.now }
    requires room { at + 40 ≤ 8 * length bytes.now }
    requires low { raise ≤ 64512 }
    ensures { (j : ℕ) → j < 4 → lane result j ≡ raise + ten bytes.now at j }
{
    lanes_in(bytes, (at / 8).min(bytes.len() - 8), at, raise)
}

// Writes the four lanes of a number to four places of a row.
#[inline(always)]
fn put_lanes(lanes: u64, row: &mut [u16; 16], place: usize)
    requires { place + 4 ≤ 16 }
    ensures written { (j : ℕ) → j < 4 → slice_index row.new (place + j) ≡ lane lanes j }
    ensures others { (i : ℕ) → i < place → slice_index row.new i ≡ slice_index row.old i }
{
    row[place] = (lanes % 65536) as u16;
    row[place + 1] = (lanes / 65536 % 65536) as u16;
    row[place + 2] = (lanes / 4294967296 % 65536) as u16;
    row[place + 3] = (lanes / 281474976710656) as u16;
}

// Writes sixteen fields of ten bits, one behind the other from the bit `at` on, to a row, each raised.
#[inline(never)]
pub(crate) fn put_row(bytes: &[u8], at: usize, raise: u16, row: &mut [u16; 16])
    requires room { at / 8 + 23 ≤ length bytes.now }
    requires small { at < 2 ^ 62 }
    requires low { raise ≤ 64512 }
    ensures { (i : ℕ) → i < 16 → slice_index row.new i ≡ raise + ten bytes.now at i }
{
    for k in 0..4usize {
        put_lanes(four_lanes(bytes, at + 40 * k, raise), row, 4 * k);
    }
}

// The same where the bytes may end with the sixteenth.
#[inline(never)]
pub(crate) fn put_last_row(bytes: &[u8], at: usize, raise: u16, row: &mut [u16; 16])
    requires room { at + 160 ≤ 8 * length bytes.now }
    requires small { at < 2 ^ 62 }
    requires low { raise ≤ 64512 }
    ensures { (i : ℕ) → i < 16 → slice_index row.new i ≡ raise + ten bytes.now at i }
{
    for k in 0..4usize {
        put_lanes(last_lanes(bytes, at + 40 * k, raise), row, 4 * k);
    }
}

// What is added to four lanes so that the highest bit of a lane tells whether it holds `limit` or more. To the `spare` last lanes, which
// are not to be judged, nothing is added.
#[tactic(auto, using(crate::proofs::Lanes::guarded, crate::proofs::Lanes::guard_low))]
fn guard(limit: usize, spare: u32) -> u64
    requires limit { limit ≤ 32768 }
    requires spare { spare < 4 }
    ensures low { (j : ℕ) → j < 4 → lane result j ≤ 32768 }
    ensures judged { (j : ℕ) → j + spare < 4 → lane result j ≡ 32768 - limit }
{
    ((32768 - limit as u64) * ONES) >> (16 * spare)
}

// Whether the highest bit of no lane is set once a guard is added.
#[tactic(auto, using(crate::proofs::Lanes::lanes_low, crate::proofs::Lanes::sum_fits))]
fn are_low(lanes: u64, guard: u64) -> bool
    requires lanes { (j : ℕ) → j < 4 → lane lanes j < 32768 }
    requires guard { (j : ℕ) → j < 4 → lane guard j ≤ 32768 }
    ensures { result ≡ true → (j : ℕ) → j < 4 → lane lanes j + lane guard j < 32768 }
{
    (lanes + guard) & 0x8000_8000_8000_8000 == 0
}

// Whether the next states in four lanes, which are those of the letters from 4 * `k` on, are there. A lane behind the letters is not
// judged.
#[inline(always)]
fn are_there(lanes: u64, size: Size, k: usize) -> bool
    requires lanes { (j : ℕ) → j < 4 → lane lanes j < 32768 }
    requires states { size.states ≤ 1024 }
    requires letter { 4 * k < size.letters }
    requires letters { size.letters ≤ 16 }
    ensures { result ≡ true → (j : ℕ) → j < 4 → 4 * k + j < size.letters →
        lane lanes j < size.states }
{
    let spare = (4 * k + 4).saturating_sub(size.letters);
    are_low(lanes, guard(size.states, spare as u32))
}

// Whether two fields of a number, its lowest ten bits and those from bit 20 on, are below `limit`. One that is not gains an eleventh bit
// by what is added.
#[inline(always)]
#[tactic(auto, using(crate::proofs::Lanes::pair_low, crate::proofs::Lanes::pair_high))]
fn pair_below(tens: u64, limit: usize) -> bool
    requires { limit ≤ 1024 }
    ensures low { result ≡ true → tens % 1024 < limit }
    ensures high { result ≡ true → tens / 2 ^ 20 % 1024 < limit }
{
    let pair = tens % 1024 + (tens >> 20) % 1024 * 1048576;
    (pair + (1024 - limit as u64) * 1048577) & 0x4000_0400 == 0
}

// Whether the four fields in the lowest forty bits of a number are.
#[inline(always)]
fn tens_below(tens: u64, limit: usize) -> bool
    requires { limit ≤ 1024 }
    ensures { result ≡ true → (j : ℕ) → j < 4 → tens / 2 ^ (30 - 10 * j) % 1024 < limit }
{
    pair_below(tens, limit) && pair_below(tens >> 10, limit)
}

// Whether the next states that stand from the bit `at` on are there. Nothing is written, so four need no lanes; the last do if they are
// fewer than four, since what is behind them is not to be judged.
#[inline(always)]
#[tactic(auto, using(crate::specs::Bounds::field_lt))]
pub(crate) fn row_below(bytes: &[u8], at: usize, size: Size) -> bool
    requires room { at / 8 + 23 ≤ length bytes.now }
    requires small { at < 2 ^ 62 }
    requires states { size.states ≤ 1024 }
    requires letters { size.letters ≤ 16 }
    ensures { result ≡ true → (a : ℕ) → a < size.letters → ten bytes.now at a < size.states }
{
    let fours = size.letters / 4;
    for k in 0..fours {
        if !tens_below(four_tens(bytes, at / 8 + 5 * k, at + 40 * k), size.states) {
            return false;
        }
    }
    4 * fours == size.letters || are_there(four_lanes(bytes, at + 40 * fours, 0), size, fours)
}

// Of the next states that stand from the bit `at` on, writes those of the letters from 4 * `k` on to their places in a row, and tells
// whether they are there.
#[inline(always)]
#[tactic(auto, using(crate::specs::Bounds::field_lt))]
fn take_four(bytes: &[u8], at: usize, size: Size, k: usize, row: &mut [u16; 16]) -> bool
    requires room { at / 8 + 23 ≤ length bytes.now }
    requires small { at < 2 ^ 62 }
    requires states { size.states ≤ 1024 }
    requires letters { size.letters ≤ 16 }
    requires letter { 4 * k < size.letters }
    ensures there { result ≡ true → (j : ℕ) → j < 4 → 4 * k + j < size.letters →
        ten bytes.now at (4 * k + j) < size.states }
    ensures taken { (j : ℕ) → j < 4 → slice_index row.new (4 * k + j) ≡ ten bytes.now at (4 * k + j) }
    ensures others { (i : ℕ) → i < 4 * k → slice_index row.new i ≡ slice_index row.old i }
{
    let lanes = four_lanes(bytes, at + 40 * k, 0);
    put_lanes(lanes, row, 4 * k);
    are_there(lanes, size, k)
}

// Writes the next states that stand from the bit `at` on to a row, and tells whether they are there. What is written behind the letters is
// no matter.
#[inline(always)]
pub(crate) fn take_row(bytes: &[u8], at: usize, size: Size, row: &mut [u16; 16]) -> bool
    requires room { at / 8 + 23 ≤ length bytes.now }
    requires small { at < 2 ^ 62 }
    requires states { size.states ≤ 1024 }
    requires letters { size.letters ≤ 16 }
    ensures there { result ≡ true → (a : ℕ) → a < size.letters → ten bytes.now at a < size.states }
    ensures taken { result ≡ true → (a : ℕ) → a < size.letters →
        slice_index row.new a ≡ ten bytes.now at a }
{
    for k in 0..size.letters.div_ceil(4) {
        if !take_four(bytes, at, size, k, row) {
            return false;
        }
    }
    true
}
