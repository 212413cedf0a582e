// Who holds a managed level, or a port of a managed range, on a table that is the image of a well-formed set.
#![tactic(auto)]

ghost use Rattle.std.specs.Prelude.{◌≡◌, length};
ghost use Rattle.layout.specs.Layout.{table_size};
ghost use Rattle.layout.specs.Reading.{facts_in};
ghost use Rattle.layout.specs.Sound.{Accepted};
ghost use Rattle.managed_holders.specs.Holders.{HereIs, LevelHolds, PortsHold, together, LevelHoldersAre, RangeHoldersAre};

use facts::{Handle, Seat};
use layout::MOST_SEATS;

// The lowest handle of the holders, and the attributes that First and Next show of them.
#[derive(Clone, Copy, Debug, PartialEq, Eq)]
pub struct Holders {
    pub lowest: Handle,
    pub shown: u8,
}

// "Bit 7 is set exactly if a live grant holds the level or a port of the range"; "For I/O, bit 0 is set if there are holders and all of them share."
const HELD: u8 = 0x80;

const HELD_SHARED: u8 = HELD + 0x01;

// Who holds the level at the seat, shown with the type of its grant.
fn level_at(t: &[u8], l: usize, s: Seat) -> Option<Holders>
    requires { length t.now ≡ table_size }
    ensures { HereIs (LevelHolds (facts_in t.now) l s.number) result }
{
    let held = seats::level_held(t, s)?;
    if held.level == l {
        Some(Holders {
            lowest: held.client,
            shown: HELD + irq_levels::type_of(held.manner),
        })
    } else {
        None
    }
}

// Who holds one of the ports at the seat, shown as sharing or not.
fn ports_at(t: &[u8], base: usize, count: usize, s: Seat) -> Option<Holders>
    requires { length t.now ≡ table_size }
    ensures { HereIs (PortsHold (facts_in t.now) base count s.number) result }
{
    let held = seats::held(t, s)?;
    if io_ranges::overlaps(held.ports.base, held.ports.count, base, count) {
        Some(Holders {
            lowest: held.client,
            shown: if held.shared { HELD_SHARED } else { HELD },
        })
    } else {
        None
    }
}

// The holders at some seats and those at another: the lower of their handles, and of what is shown of them. All holders of a level have one type, and
// HELD, of one that doesn't share, is below HELD_SHARED.
fn joined(some: Option<Holders>, more: Option<Holders>) -> Option<Holders>
    ensures { result ≡ together some more }
{
    match (some, more) {
        (Some(x), Some(y)) => Some(Holders {
            lowest: x.lowest.min(y.lowest),
            shown: x.shown.min(y.shown),
        }),
        (x, None) => x,
        (None, y) => y,
    }
}

// "the handle answered is then the lowest of the holders' handles"; "For IRQ, bits 0 to 1 are the holders' type"
pub fn of_level(t: &[u8], l: usize) -> Option<Holders>
    requires { Accepted t.now }
    ensures { LevelHoldersAre t.now l result }
{
    let mut holders = None;
    for s in 0..MOST_SEATS {
        holders = joined(holders, level_at(t, l, Seat::new(s)));
    }
    holders
}

pub fn of_range(t: &[u8], base: usize, count: usize) -> Option<Holders>
    requires { Accepted t.now }
    ensures { RangeHoldersAre t.now base count result }
{
    let mut holders = None;
    for s in 0..MOST_SEATS {
        holders = joined(holders, ports_at(t, base, count, Seat::new(s)));
    }
    holders
}
