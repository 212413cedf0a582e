// Managed IRQ levels, on a table that is the image of a well-formed set: added, removed, and which comes next.
#![tactic(auto)]

ghost use Rattle.std.specs.Prelude.{◌≡◌, ◌+◌, ◌<◌, length, set};
ghost use Rattle.facts.specs.Says.{Says};
ghost use Rattle.facts.specs.Packets.{byte};
ghost use Rattle.facts.specs.Table;
ghost use Rattle.layout.specs.Layout.{table_size};
ghost use Rattle.layout.specs.Reading.{level_place};
ghost use Rattle.layout.specs.Sound.{Accepted};
ghost use Rattle.managed_levels.specs.Asked.{NextLevelIs, AddsLevel, RemovesLevel};

use facts::Code;
use layout::{ALL_LEVELS, LEVEL_RESERVED_AT, LEVEL_SIZE, LEVELS_AT, MARKED};

// Whether a level is managed.
fn is_managed(t: &[u8], l: usize) -> bool
    requires { (length t.now ≡ table_size) × (l < Table.all_levels) }
    ensures { Says result (byte t.now (level_place l) ≡ 1) }
{
    table_read::byte(t, LEVELS_AT + l * LEVEL_SIZE) == MARKED
}

// A level's two marks.
fn mark(t: &mut [u8], l: usize, managed: u8, reserved: u8)
    requires { (length t.old ≡ table_size) × (l < Table.all_levels) }
    ensures { t.new ≡ set (set t.old (level_place l) managed) (level_place l + 1) reserved }
{
    let at = LEVELS_AT + l * LEVEL_SIZE;
    t[at] = managed;
    t[at + LEVEL_RESERVED_AT] = reserved;
}

pub fn add(t: &mut [u8], level: u32, attributes: u8) -> Result<(), Code>
    requires { Accepted t.old }
    ensures { AddsLevel level attributes t.old t.new result }
{
    let reserved = managed_changes::reserve_asked(attributes)?;
    let l = irq_levels::below_levels(level)?;
    if is_managed(t, l) {
        return Err(Code::InUse);
    }
    mark(t, l, 1, reserved);
    Ok(())
}

pub fn remove(t: &mut [u8], level: u32, attributes: u8) -> Result<(), Code>
    requires { Accepted t.old }
    ensures { RemovesLevel level attributes t.old t.new result }
{
    managed_changes::no_bit(attributes)?;
    let l = irq_levels::below_levels(level)?;
    if !is_managed(t, l) {
        return Err(Code::BadIrq);
    }
    if managed_holders::of_level(t, l).is_some() {
        return Err(Code::InUse);
    }
    mark(t, l, 0, 0);
    Ok(())
}

// The lowest managed level that isn't below a number.
pub fn next(t: &[u8], from: usize) -> Option<usize>
    requires { Accepted t.now }
    ensures { NextLevelIs t.now from result }
{
    (from..ALL_LEVELS).find(|l| is_managed(t, *l))
}
