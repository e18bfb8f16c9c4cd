// Fields of bits across bytes, the most significant bit first, by shifts and masks (docs/DECISIONS.md, "Forms of
// code"). A place and a width are no struct of their own: each caller makes both anew and hands them on once. The casts that are
// left are between `usize` and `u32`, which have no `From`, or cut a number to its lowest bits.
ghost use Rattle.std.specs.Prelude.{◌≡◌, ℕ, ◌+◌, ◌-◌, ◌*◌, ◌/◌, ◌%◌, ◌^◌, ◌<◌, ◌≤◌, ◌⊎◌, length, nat_le, slice_index, slice_set};
ghost use Rattle.sheet.specs.Bits.{bit, bytes_from, field, field_answer, three, truncated, window, Written};

use crate::width::Width;
use automaton::fault::Fault;
use automaton::kind::FaultKind;
use automaton::layer::Layer;

// The byte at `i`, and 0 past the end.
fn byte_at(bytes: &[u8], i: usize) -> u8
    ensures { result ≡ slice_index bytes.now i }
{
    bytes.get(i).copied().unwrap_or(0)
}

// Three bytes as one number, the first one highest.
#[tactic(auto, using(crate::proofs::Windows::three_or))]
fn joined(high: u8, middle: u8, low: u8) -> u32
    ensures value { result ≡ three high middle low }
    ensures bound { result < 2 ^ 24 }
{
    u32::from(high) << 16 | u32::from(middle) << 8 | u32::from(low)
}

// The three bytes from `first` on as one number.
fn three_bytes(bytes: &[u8], first: usize) -> u32
    requires { first < 2 ^ 61 }
    ensures value { result ≡ window bytes.now first }
    ensures bound { result < 2 ^ 24 }
    ensures typed { (k : ℕ) → slice_index bytes.now k < 256 }
{
    joined(
        byte_at(bytes, first),
        byte_at(bytes, first + 1),
        byte_at(bytes, first + 2),
    )
}

// The same three bytes, and below them the one behind. Where all four are there, they are read at once.
#[tactic(auto, using(crate::proofs::Windows::one_more))]
fn four_bytes(bytes: &[u8], first: usize) -> u32
    requires { first < 2 ^ 61 }
    ensures value { result / 2 ^ 8 ≡ window bytes.now first }
    ensures typed { (k : ℕ) → slice_index bytes.now k < 256 }
{
    if first + 3 < bytes.len() {
        let three = joined(bytes[first], bytes[first + 1], bytes[first + 2]);
        return three << 8 | u32::from(bytes[first + 3]);
    }
    three_bytes(bytes, first) << 8
}

// Eight bytes that are there as one number. They are read at once.
pub(crate) fn eight_there(bytes: &[u8], first: usize) -> u64
    requires { first + 8 ≤ length bytes.now }
    ensures value { result ≡ bytes_from bytes.now first 8 }
    ensures typed { (k : ℕ) → slice_index bytes.now k < 256 }
{
    let (words, _) = bytes[first..first + 8].as_chunks::<8>();
    u64::from_be_bytes(words[0])
}

// Whether the field at the bit `at` ends within the bytes.
fn has_room(bytes: &[u8], at: usize, width: Width) -> bool
    ensures { result ≡ nat_le (at + width.bits) (8 * length bytes.now) }
{
    at / 8 + (at % 8 + width.bits as usize).div_ceil(8) <= bytes.len()
}

// The refusal of a field that has no room.
fn no_room() -> Fault
    ensures { result ≡ truncated }
{
    Fault::new(FaultKind::Truncated, Layer::Sheet)
}

// The field at the bit `at`; past the end every bit is 0.
#[tactic(auto, using(crate::proofs::Windows::mask_lt, crate::proofs::Windows::window_read))]
pub(crate) fn read_bits(bytes: &[u8], at: usize, width: Width) -> u16
    ensures value { result ≡ field bytes.now at width.bits }
    ensures bound { result < 2 ^ width.bits }
{
    let shift = 32 - (at % 8) as u32 - width.bits;
    let shifted = four_bytes(bytes, at / 8).checked_shr(shift).unwrap_or(0);
    (shifted & ((1 << width.bits) - 1)) as u16
}

// The field at the bit `at`, refused where it ends past the last byte.
pub fn read_field(bytes: &[u8], at: usize, width: Width) -> Result<u16, Fault>
    ensures { result ≡ field_answer bytes.now at width.bits }
{
    if !has_room(bytes, at, width) {
        return Err(no_room());
    }
    Ok(read_bits(bytes, at, width))
}

// Writes the byte at `i`, and nothing past the end.
#[tactic(auto, using(std::proofs::lemmas::List::set_past))]
fn put_byte(bytes: &mut [u8], i: usize, b: u8)
    ensures { bytes.new ≡ slice_set bytes.old i b }
{
    if i < bytes.len() {
        bytes[i] = b;
    }
}

// The lowest bits of a value.
#[tactic(auto, using(crate::proofs::Windows::mask_low))]
fn low_bits(value: u16, width: Width) -> u32
    ensures { result ≡ value % 2 ^ width.bits }
{
    u32::from(value) & ((1 << width.bits) - 1)
}

// Makes the field at the bit `at` hold `value`, and leaves every other bit.
fn write_bits(bytes: &mut [u8], at: usize, width: Width, value: u32)
    requires small { value < 2 ^ width.bits }
    requires room { at + width.bits ≤ 8 * length bytes.old }
    ensures holds { field bytes.new at width.bits ≡ value }
    ensures others { (j : ℕ) → (j < at) ⊎ (at + width.bits ≤ j) → bit bytes.new j ≡ bit bytes.old j }
{
    let first = at / 8;
    let shift = 24 - (at % 8) as u32 - width.bits;
    let old = three_bytes(bytes, first);
    let above = old >> (shift + width.bits) << (shift + width.bits);
    let below = old & ((1 << shift) - 1);
    let new = above | value << shift | below;
    put_byte(bytes, first, ((new >> 16) & 0xff) as u8);
    put_byte(bytes, first + 1, ((new >> 8) & 0xff) as u8);
    put_byte(bytes, first + 2, (new & 0xff) as u8);
}

// Makes the field at the bit `at` hold the lowest bits of `value`, and leaves every other bit. A field that ends past the last
// byte is refused, and nothing is written.
pub fn write_field(bytes: &mut [u8], at: usize, width: Width, value: u16) -> Result<(), Fault>
    ensures { Written bytes.old at width.bits value bytes.new result }
{
    if !has_room(bytes, at, width) {
        return Err(no_room());
    }
    write_bits(bytes, at, width, low_bits(value, width));
    Ok(())
}
