// AdjustResourceInfo's packets: what they name and ask for, at either width, and what is written into them.
#![tactic(auto)]

ghost use Rattle.std.specs.Prelude.{◌≡◌, length};
ghost use Rattle.facts.specs.declared.Code.TheVariants.{BadSize};
ghost use Rattle.facts.specs.Checks.{RefusedIf};
ghost use Rattle.facts.specs.Resources;
ghost use Rattle.managed_packets.specs.Fields.{ActionIs, number_of, HeadIs, FormIs, AskedIs, FromIs, Written, attributes_shown_lem, handle_shown_lem};

use facts::{Code, Handle, RangeAsked, Width};
use layout::MOST_LINES;
use managed_holders::Holders;
use seats::NOBODY;

// The action First (5.3), which shows the lowest of what is managed.
pub const FIRST: u8 = 2;

// The actions (5.3): Remove and Add; First and Next show what is managed.
#[derive(Clone, Copy, Debug, PartialEq, Eq)]
pub enum Action {
    Remove,
    Add,
    First,
    Next,
}

// "Then Action over 3: BAD_ARGS."
impl TryFrom<u8> for Action {
    type Error = Code;

    ghost try_from_gives = { ActionIs };

    fn try_from(action: u8) -> Result<Self, Code> {
        match action {
            0 => Ok(Action::Remove),
            1 => Ok(Action::Add),
            FIRST => Ok(Action::First),
            3 => Ok(Action::Next),
            4..=0xFF => Err(Code::BadArgs),
        }
    }
}

// An action's number.
impl From<Action> for u8 {
    ghost from_gives = { λ a n. n ≡ number_of a };

    fn from(action: Action) -> u8
        ensures { result ≡ number_of action }
    {
        match action {
            Action::Remove => 0,
            Action::Add => 1,
            Action::First => FIRST,
            Action::Next => 3,
        }
    }
}

// The fields that every packet has.
const ACTION_AT: usize = 0;

const RESOURCE_AT: usize = 1;

const HEAD_LENGTH: usize = 2;

// "I/O fields, short: base 2 bytes at 2, ports 1 at 4, attributes at 5, lines at 6."
const BASE_AT: usize = 2;

const SHORT_LENGTH: usize = 7;

const SHORT_COUNT_AT: usize = 4;

const SHORT_ATTRIBUTES_AT: usize = 5;

const SHORT_LINES_AT: usize = 6;

// "Long: base 4 at 2, ports 4 at 6, attributes at 10, lines at 11."
const WIDE_LENGTH: usize = 12;

const WIDE_COUNT_AT: usize = 6;

const WIDE_ATTRIBUTES_AT: usize = 10;

const WIDE_LINES_AT: usize = 11;

// "A short packet can't show more than 255 ports".
const MOST_SHOWN: usize = 255;

// The action and the resource that a packet names: "Length under 2: BAD_ARG_LENGTH."
pub fn named(p: &[u8]) -> Result<(u8, u8), Code>
    ensures { HeadIs p.now result }
{
    if p.len() < HEAD_LENGTH {
        return Err(Code::BadArgLength);
    }
    Ok((p[ACTION_AT], p[RESOURCE_AT]))
}

// The width of an I/O packet: "I/O 7 or 12".
pub fn width_of(p: &[u8]) -> Result<Width, Code>
    ensures { FormIs p.now result }
{
    match p.len() {
        SHORT_LENGTH => Ok(Width::Short),
        WIDE_LENGTH => Ok(Width::Wide),
        _ => Err(Code::BadArgLength),
    }
}

// What a packet of a width asks for.
pub fn asked(p: &[u8], w: Width) -> RangeAsked
    requires { length p.now ≡ Resources.io_adjust_length w }
    ensures { AskedIs w p.now result }
{
    match w {
        Width::Short => RangeAsked {
            base: table_read::word(p, BASE_AT) as u32,
            count: u32::from(p[SHORT_COUNT_AT]),
            attributes: p[SHORT_ATTRIBUTES_AT],
            lines: p[SHORT_LINES_AT],
        },
        Width::Wide => RangeAsked {
            base: table_read::long(p, BASE_AT) as u32,
            count: table_read::long(p, WIDE_COUNT_AT) as u32,
            attributes: p[WIDE_ATTRIBUTES_AT],
            lines: p[WIDE_LINES_AT],
        },
    }
}

// The number from which First or Next looks.
pub fn from(action: u8, given: u32) -> usize
    ensures { FromIs action given result }
{
    if action == FIRST {
        0
    } else {
        given as usize + 1
    }
}

// A packet of a width can show so many ports.
pub fn can_show(w: Width, count: usize) -> Result<(), Code>
    ensures { RefusedIf (Resources.TooMany w count) BadSize result }
{
    if w == Width::Short && MOST_SHOWN < count {
        Err(Code::BadSize)
    } else {
        Ok(())
    }
}

// What is shown of the holders: attributes and a handle.
pub fn attributes_shown(holders: Option<Holders>) -> u8
    ensures { result ≡ attributes_shown_lem holders }
{
    holders.map_or(0, |x| x.shown)
}

pub fn handle_shown(holders: Option<Holders>) -> Handle
    ensures { result.0 ≡ handle_shown_lem holders }
{
    holders.map_or(NOBODY, |x| x.lowest)
}

// "Written: base and ports, or level; attributes; lines 16."
pub fn write(p: &mut [u8], w: Width, base: usize, count: usize, attributes: u8)
    requires { (length p.old ≡ Resources.io_adjust_length w) × (Resources.TooMany w count → ⊥) }
    ensures { Written w base count attributes p.old p.new }
{
    match w {
        Width::Short => {
            table_write::put_word(p, BASE_AT, base);
            p[SHORT_COUNT_AT] = count as u8;
            p[SHORT_ATTRIBUTES_AT] = attributes;
            p[SHORT_LINES_AT] = MOST_LINES as u8;
        }
        Width::Wide => {
            table_write::put_long(p, BASE_AT, base);
            table_write::put_long(p, WIDE_COUNT_AT, count);
            p[WIDE_ATTRIBUTES_AT] = attributes;
            p[WIDE_LINES_AT] = MOST_LINES as u8;
        }
    }
}
