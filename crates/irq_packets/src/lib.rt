// The packets of RequestIRQ and ReleaseIRQ: what they ask for, and what a grant writes.
#![tactic(auto)]

ghost use Rattle.std.specs.Prelude.{◌≡◌, ◌≢◌, ◌<◌, length};
ghost use Rattle.facts.specs.Table;
ghost use Rattle.facts.specs.Says.{Says};
ghost use Rattle.facts.specs.Packets.{bit};
ghost use Rattle.facts.specs.Levels.{exclusive_type, dynamic_type};
ghost use Rattle.facts.specs.declared.Code.TheVariants.{BadAttribute, BadArgs};
ghost use Rattle.facts.specs.Checks.{RefusedIf};
ghost use Rattle.facts.specs.Irq.{request_irq_length, attributes_of, info1, info2, type_asked_lem, level_asked_lem, manner_asked_lem, dynamic_of};
ghost use Rattle.facts.specs.Irq.{levels_named_lem, irq_asked, with_pulse, assigning};
ghost use Rattle.facts.specs.Irq.{ForcePulse, IrqFirstShared, IrqAttributesBad, IrqInfoBad, Mask, LevelBit, PulseBit, ShareBit};

use facts::{Code, IrqAsked, Manner};
use irq_levels::{DYNAMIC_TYPE, EXCLUSIVE_TYPE, TIME_MULTIPLEXED_TYPE};
use layout::ALL_LEVELS;

// RequestIRQ's packet (5.53), and up to AssignedIRQ ReleaseIRQ's (5.45): where its fields stand.
const ATTRIBUTES_AT: usize = 2;

pub const ASSIGNED_AT: usize = 4;

const INFO_1_AT: usize = 5;

const INFO_2_AT: usize = 6;

// The attributes: the type in bits 0 to 1, and the bits' places. A request has none from bit 4 on; what a grant writes is bit 8.
const ALL_TYPES: usize = 4;

const RESERVED_TYPE: u8 = 3;

const FORCE_PULSE: usize = 2;

const FIRST_SHARED: usize = 3;

const ALL_ATTRIBUTES: usize = 16;

const PULSE_ALLOCATED: usize = 256;

// IRQInfo1: a level in bits 0 to 3, and the other bits' places.
const MASK: usize = 4;

const LEVEL: usize = 5;

const PULSE: usize = 6;

const SHARE: usize = 7;

fn attribute_set(p: &[u8], place: usize) -> bool
    requires { (3 < length p.now) × (place < 16) }
    ensures { Says result (bit (attributes_of p.now) place ≡ 1) }
{
    table_read::is_set(table_read::word(p, ATTRIBUTES_AT), place)
}

fn info_set(p: &[u8], place: usize) -> bool
    requires { (length p.now ≡ request_irq_length) × (place < 16) }
    ensures { Says result (bit (info1 p.now) place ≡ 1) }
{
    table_read::is_set(table_read::byte(p, INFO_1_AT), place)
}

pub fn type_asked(p: &[u8]) -> u8
    requires { 3 < length p.now }
    ensures { result ≡ type_asked_lem p.now }
{
    (table_read::word(p, ATTRIBUTES_AT) % ALL_TYPES) as u8
}

fn first_shared(p: &[u8]) -> bool
    requires { length p.now ≡ request_irq_length }
    ensures { Says result (IrqFirstShared p.now) }
{
    attribute_set(p, FIRST_SHARED)
}

// "First Shared with Exclusive"
fn first_exclusive(p: &[u8]) -> bool
    requires { length p.now ≡ request_irq_length }
    ensures { Says result (IrqFirstShared p.now × (type_asked_lem p.now ≡ exclusive_type)) }
{
    first_shared(p) && type_asked(p) == EXCLUSIVE_TYPE
}

// "Force Pulse without the card's Pulse bit"
fn forced_unable(p: &[u8]) -> bool
    requires { length p.now ≡ request_irq_length }
    ensures { Says result (ForcePulse p.now × (PulseBit p.now → ⊥)) }
{
    attribute_set(p, FORCE_PULSE) && !info_set(p, PULSE)
}

// "dynamic sharing without its Share bit"
fn dynamic_unable(p: &[u8]) -> bool
    requires { length p.now ≡ request_irq_length }
    ensures { Says result ((type_asked_lem p.now ≡ dynamic_type) × (ShareBit p.now → ⊥)) }
{
    type_asked(p) == DYNAMIC_TYPE && !info_set(p, SHARE)
}

// The attributes are ones that a request may have.
pub fn attributes_asked(p: &[u8]) -> Result<(), Code>
    requires { length p.now ≡ request_irq_length }
    ensures { RefusedIf (IrqAttributesBad p.now) BadAttribute result }
{
    let kind = type_asked(p);
    let attributes = table_read::word(p, ATTRIBUTES_AT);
    if kind == RESERVED_TYPE
        || ALL_ATTRIBUTES <= attributes
        || first_exclusive(p)
        || forced_unable(p)
        || dynamic_unable(p)
    {
        return Err(Code::BadAttribute);
    }
    Ok(())
}

// "neither Level nor Pulse"
fn neither(p: &[u8]) -> bool
    requires { length p.now ≡ request_irq_length }
    ensures { Says result ((LevelBit p.now → ⊥) × (PulseBit p.now → ⊥)) }
{
    !info_set(p, LEVEL) && !info_set(p, PULSE)
}

fn level_asked(p: &[u8]) -> usize
    requires { length p.now ≡ request_irq_length }
    ensures { result ≡ level_asked_lem p.now }
{
    table_read::byte(p, INFO_1_AT) % ALL_LEVELS
}

// "Mask set with any of IRQInfo1's bits 0 to 3"
fn mask_and_level(p: &[u8]) -> bool
    requires { length p.now ≡ request_irq_length }
    ensures { Says result (Mask p.now × (level_asked_lem p.now ≢ 0)) }
{
    info_set(p, MASK) && level_asked(p) != 0
}

// "or with IRQInfo2 0"
fn mask_of_none(p: &[u8]) -> bool
    requires { length p.now ≡ request_irq_length }
    ensures { Says result (Mask p.now × (info2 p.now ≡ 0)) }
{
    info_set(p, MASK) && table_read::word(p, INFO_2_AT) == 0
}

// IRQInfo1 and IRQInfo2 are ones that a request may have.
pub fn info_asked(p: &[u8]) -> Result<(), Code>
    requires { length p.now ≡ request_irq_length }
    ensures { RefusedIf (IrqInfoBad p.now) BadArgs result }
{
    if neither(p) || mask_and_level(p) || mask_of_none(p) {
        return Err(Code::BadArgs);
    }
    Ok(())
}

// "Dynamic is pulse if Force Pulse is set or the card lacks Level."
fn dynamic(p: &[u8]) -> Manner
    requires { length p.now ≡ request_irq_length }
    ensures { result ≡ dynamic_of (bit (attributes_of p.now) 2) (bit (info1 p.now) 5) }
{
    if attribute_set(p, FORCE_PULSE) || !info_set(p, LEVEL) {
        Manner::DynamicPulse
    } else {
        Manner::DynamicLevel
    }
}

// The manner that a request asks for.
fn manner_asked(p: &[u8]) -> Manner
    requires { length p.now ≡ request_irq_length }
    ensures { result ≡ manner_asked_lem p.now }
{
    match type_asked(p) {
        EXCLUSIVE_TYPE => Manner::Exclusive,
        TIME_MULTIPLEXED_TYPE => Manner::TimeMultiplexed,
        _ => dynamic(p),
    }
}

// "With Mask clear, the low four bits name one level and IRQInfo2 is ignored.": a bit for each level that is named.
fn levels_named(p: &[u8]) -> usize
    requires { length p.now ≡ request_irq_length }
    ensures { result ≡ levels_named_lem p.now }
{
    if info_set(p, MASK) {
        return table_read::word(p, INFO_2_AT);
    }
    1 << level_asked(p)
}

// What a request asks for: its packet, read once.
pub fn asked(p: &[u8]) -> IrqAsked
    requires { length p.now ≡ request_irq_length }
    ensures { result ≡ irq_asked p.now }
{
    IrqAsked {
        manner: manner_asked(p),
        named: levels_named(p),
        first: first_shared(p),
    }
}

// "for dynamic pulse only, attribute bit 8"
fn show_pulse(p: &mut [u8], m: Manner)
    requires { length p.old ≡ request_irq_length }
    ensures { p.new ≡ with_pulse m p.old }
{
    if m == Manner::DynamicPulse {
        let attributes = table_read::word(p, ATTRIBUTES_AT);
        table_write::put_word(p, ATTRIBUTES_AT, attributes + PULSE_ALLOCATED);
    }
}

// "Success writes AssignedIRQ and, for dynamic pulse only, attribute bit 8."
pub fn assign(p: &mut [u8], m: Manner, l: usize)
    requires { (length p.old ≡ request_irq_length) × (l < Table.all_levels) × (m ≡ manner_asked_lem p.old) }
    ensures { p.new ≡ assigning p.old l }
{
    show_pulse(p, m);
    p[ASSIGNED_AT] = l as u8;
}
