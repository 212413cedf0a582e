// IRQ levels: which there are, the manners in which they are held, their types, and which go together.
#![tactic(auto)]

ghost use Rattle.std.specs.Prelude.{◌≡◌, ◌≤◌};
ghost use Rattle.facts.specs.Says.{Says};
ghost use Rattle.facts.specs.Levels.{Together, type_of};
ghost use Rattle.layout.specs.Layout.{manner_byte_lem};
ghost use Rattle.irq_levels.specs.Levels.{LevelIs};
ghost use Rattle.irq_levels.specs.Apart.{MarksApart, MannersApart};

use facts::{Code, Manner};
use layout::ALL_LEVELS;

// The types of a request's bits 0 to 1 (5.53).
pub const EXCLUSIVE_TYPE: u8 = 0;

pub const TIME_MULTIPLEXED_TYPE: u8 = 1;

pub const DYNAMIC_TYPE: u8 = 2;

// A manner's type.
pub fn type_of(m: Manner) -> u8
    ensures { (result ≡ type_of m) × (result ≤ 2) }
{
    match m {
        Manner::Exclusive => EXCLUSIVE_TYPE,
        Manner::TimeMultiplexed => TIME_MULTIPLEXED_TYPE,
        Manner::DynamicLevel => DYNAMIC_TYPE,
        Manner::DynamicPulse => DYNAMIC_TYPE,
    }
}

// "Two manners go together by a four by four table: only equal ones, and never exclusive." Rows and columns stand in the order of the manners:
// exclusive, time-multiplexed, dynamic level, dynamic pulse.
const TOGETHER: [[bool; 4]; 4] = [
    [false, false, false, false],
    [false, true, false, false],
    [false, false, true, false],
    [false, false, false, true],
];

// A manner's number: its byte in a grant's record, its row and column in the table.
pub fn manner_byte(m: Manner) -> usize
    ensures { result ≡ manner_byte_lem m }
{
    match m {
        Manner::Exclusive => 0,
        Manner::TimeMultiplexed => 1,
        Manner::DynamicLevel => 2,
        Manner::DynamicPulse => 3,
    }
}

pub fn together(a: Manner, b: Manner) -> bool
    ensures { Says result (Together a b) }
{
    let i = manner_byte(a);
    let j = manner_byte(b);
    TOGETHER[i][j]
}

// 1 if two manners don't go together, else 0.
fn mark_apart(a: Manner, b: Manner) -> u64
    ensures { MarksApart a b result }
{
    if together(a, b) { 0 } else { 1 }
}

// The set of the manners that don't go together with one: a bit for each, at its number. For dynamic level these are exclusive,
// time-multiplexed and dynamic pulse: 1 + 2 + 8.
fn row_apart(m: Manner) -> u64
    ensures { MannersApart m result }
{
    let exclusive = mark_apart(m, Manner::Exclusive);
    let time_multiplexed = mark_apart(m, Manner::TimeMultiplexed);
    let dynamic_level = mark_apart(m, Manner::DynamicLevel);
    let dynamic_pulse = mark_apart(m, Manner::DynamicPulse);
    exclusive + 2 * time_multiplexed + 4 * dynamic_level + 8 * dynamic_pulse
}

// The same, and quick: each arm names its manner, so the compiler works out its row, and the code has a number there.
pub fn apart(m: Manner) -> u64
    ensures { MannersApart m result }
{
    match m {
        Manner::Exclusive => row_apart(Manner::Exclusive),
        Manner::TimeMultiplexed => row_apart(Manner::TimeMultiplexed),
        Manner::DynamicLevel => row_apart(Manner::DynamicLevel),
        Manner::DynamicPulse => row_apart(Manner::DynamicPulse),
    }
}

// A level that is named, which is one of a table's levels.
pub fn below_levels(level: u32) -> Result<usize, Code>
    ensures { LevelIs level result }
{
    let number = level as usize;
    if number < ALL_LEVELS {
        Ok(number)
    } else {
        Err(Code::BadIrq)
    }
}
