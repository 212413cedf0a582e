// Reads lent bytes where they lie: numbers, bits, zeros, and the manner that a byte says. What every other crate reads by.
#![tactic(auto)]

ghost use Rattle.std.specs.Prelude.{◌≡◌, ◌+◌, ◌-◌, ◌*◌, ◌<◌, ◌≤◌, length};
ghost use Rattle.facts.specs.Says.{Says};
ghost use Rattle.facts.specs.Packets;
ghost use Rattle.layout.specs.Reading.{manner_of_lem};
ghost use Rattle.layout.specs.Sound.{Zero};
ghost use Rattle.table_read.specs.Zeros;
ghost use Rattle.table_read.specs.Zeros.{FourZero};

use facts::{Handle, Manner};

// The stretches that are looked at side by side are multiples of this many bytes.
const STEP: usize = 32;

// Numbers of one, two and four bytes, little-endian.
pub fn byte(t: &[u8], at: usize) -> usize
    requires { at < length t.now }
    ensures { (result ≡ Packets.byte t.now at) × (result < 256) }
{
    usize::from(t[at])
}

pub fn word(t: &[u8], at: usize) -> usize
    requires { at + 1 < length t.now }
    ensures { (result ≡ Packets.word t.now at) × (result < 65536) }
{
    usize::from(word_u16(t, at))
}

pub fn long(t: &[u8], at: usize) -> usize
    requires { at + 3 < length t.now }
    ensures { (result ≡ Packets.long t.now at) × (result < 4294967296) }
{
    u32::from_le_bytes([t[at], t[at + 1], t[at + 2], t[at + 3]]) as usize
}

// A number of two bytes, for rows that the compiler looks at side by side.
pub fn word_u16(t: &[u8], at: usize) -> u16
    requires { at + 1 < length t.now }
    ensures { result ≡ Packets.word t.now at }
{
    u16::from_le_bytes([t[at], t[at + 1]])
}

// The handle that two bytes say.
pub fn handle(t: &[u8], at: usize) -> Handle
    requires { at + 1 < length t.now }
    ensures { result.0 ≡ Packets.word t.now at }
{
    Handle(word_u16(t, at))
}

// The number of eight bytes, little-endian, in one load.
pub fn eight(t: &[u8], at: usize) -> u64
    requires { at + 7 < length t.now }
    ensures { result ≡ Zeros.eight t.now at }
{
    u64::from_le_bytes([
        t[at],
        t[at + 1],
        t[at + 2],
        t[at + 3],
        t[at + 4],
        t[at + 5],
        t[at + 6],
        t[at + 7],
    ])
}

// Whether the bit in a place is set.
pub fn is_set(n: usize, place: usize) -> bool
    requires { place < 16 }
    ensures { Says result (Packets.bit n place ≡ 1) }
{
    (n >> place) % 2 == 1
}

// Whether the bytes from one place up to another are zero: all of them or-ed together, with no early exit.
pub fn zero(t: &[u8], from: usize, to: usize) -> bool
    requires { (from ≤ to) × (to ≤ length t.now) }
    ensures { Says result (Zero t.now from to) }
{
    let mut all = 0;
    for b in &t[from..to] {
        all |= b;
    }
    all == 0
}

// Whether the bytes of four stretches of one size are zero: each or-ed together by itself, and all four at a time.
pub fn four_zero(
    t: &[u8],
    first: usize,
    second: usize,
    third: usize,
    fourth: usize,
    size: usize,
) -> bool
    requires { (first + size ≤ length t.now) × (second + size ≤ length t.now) × (third + size ≤ length t.now) × (fourth + size ≤ length t.now) }
    ensures { Says result (FourZero t.now first second third fourth size) }
{
    let mut all = 0;
    let mut all2 = 0;
    let mut all3 = 0;
    let mut all4 = 0;
    for i in 0..size {
        all |= t[first + i];
        all2 |= t[second + i];
        all3 |= t[third + i];
        all4 |= t[fourth + i];
    }
    all | all2 | all3 | all4 == 0
}

// Whether the bytes of a stretch of four quarters of one size are zero. From 2,048 up to 8,192 these are four quarters of 1,536 bytes, from 2,048,
// 3,584, 5,120 and 6,656 on.
pub fn quarters_zero(t: &[u8], from: usize, size: usize) -> bool
    requires { from + 4 * size ≤ length t.now }
    ensures { Says result (Zero t.now from (from + 4 * size)) }
{
    let second = from + size;
    let third = second + size;
    let fourth = third + size;
    four_zero(t, from, second, third, fourth, size)
}

// Whether the bytes of a stretch of any size are zero: two stretches from its beginning on and two up to its end, all of one size that `STEP` divides, so that
// none is looked at byte by byte. They overlap: from 53 up to 270 they are 64 bytes each, from 53, 117, 142 and 206 on.
pub fn spread_zero(t: &[u8], from: usize, to: usize) -> bool
    requires { (from ≤ to) × (to ≤ length t.now) × (to < 65536) }
    ensures { Says result (Zero t.now from to) }
{
    let bytes = to - from;
    if bytes < 2 * STEP {
        return zero(t, from, to);
    }
    let size = (bytes + 4 * STEP - 1) / (4 * STEP) * STEP;
    four_zero(t, from, from + size, to - 2 * size, to - size, size)
}

// Whether so many eights of bytes are zero: each is one number of eight bytes.
pub fn eights_zero(t: &[u8], from: usize, eights: usize) -> bool
    requires { from + 8 * eights ≤ length t.now }
    ensures { Says result (Zero t.now from (from + 8 * eights)) }
{
    let mut all = 0;
    for i in 0..eights {
        all |= eight(t, from + 8 * i);
    }
    all == 0
}

// The manner that a byte of the table says.
pub fn manner_of(n: usize) -> Manner
    ensures { result ≡ manner_of_lem n }
{
    match n {
        0 => Manner::Exclusive,
        1 => Manner::TimeMultiplexed,
        2 => Manner::DynamicLevel,
        _ => Manner::DynamicPulse,
    }
}
