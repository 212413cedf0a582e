// The managed ranges of the I/O grants' ports: one range that has them all, which is looked for near that of the grant before, and a search where there is none.
ghost use Rattle.std.specs.Prelude.{◌≡◌, ◌<◌, ◌≤◌, max, length};
ghost use Rattle.facts.specs.Table;
ghost use Rattle.facts.specs.Says.{Says};
ghost use Rattle.layout.specs.Layout.{table_size};
ghost use Rattle.layout.specs.Reading.{ranges_in};
ghost use Rattle.layout.specs.Sound.{RangesSound};
ghost use Rattle.io_answering.specs.Gaps.{AllManagedIn};
ghost use Rattle.io_answering.specs.Rows.{GapsAre};
ghost use Rattle.seats.specs.Seats.{range};
ghost use Rattle.table_ios.specs.Parts.{InRange, RangeHas, RangeServes};

use facts::{Ports, Seat};
use io_answering::Gaps;
use layout::{MOST_LINES, MOST_RANGES, RANGE_COUNT_AT, RANGE_SIZE, RANGES_AT, RANGES_IN};

// Whether the ports lie within the managed range `i`.
fn in_range(t: &[u8], i: usize, base: usize, count: usize) -> bool
    requires { (length t.now ≡ table_size) × (ranges_in t.now ≤ Table.most_ranges) }
    ensures { Says result (InRange t.now i base count) }
{
    if table_read::byte(t, RANGES_IN) <= i {
        return false;
    }
    let at = RANGES_AT + i * RANGE_SIZE;
    let from = table_read::word(t, at);
    let end = from + table_read::long(t, at + RANGE_COUNT_AT);
    from <= base && base <= end && count <= end - base
}

// Whether the ports are managed, and every other where their card answers. One that decodes all lines answers nowhere else, so for it the range `near`
// decides, if there is one: it has the ports.
pub fn ports_managed(t: &[u8], gaps: &Gaps, near: usize, ports: Ports) -> bool
    requires ranges { (length t.now ≡ table_size) × (ranges_in t.now ≤ Table.most_ranges) × RangesSound t.now × GapsAre t.now ports.lines gaps.now }
    requires ports { (ports.base < Table.all_ports) × (1 ≤ ports.count) × (ports.count < 256) × (ports.lines ≤ Table.most_lines) }
    requires range_has { RangeHas t.now near ports }
    ensures { Says result (AllManagedIn t.now ports) }
{
    (ports.lines == MOST_LINES && near < table_read::byte(t, RANGES_IN))
        || io_answering::managed(t, gaps, ports)
}

// The range at the place `middle`, where it starts at or before a port; else that at the place `low`.
fn later(t: &[u8], low: usize, middle: usize, p: usize) -> usize
    requires { (length t.now ≡ table_size) × (middle < Table.most_ranges) }
    ensures { result ≤ max low middle }
{
    if p < table_read::word(t, RANGES_AT + middle * RANGE_SIZE) {
        return low;
    }
    middle
}

// The last managed range that starts at or before a port, by halves. For a port of the range 20 of 32 the ranges 16, 24, 20, 22 and 21 are looked at.
fn range_from(t: &[u8], p: usize) -> usize
    requires { (length t.now ≡ table_size) × (ranges_in t.now ≤ Table.most_ranges) }
    ensures { result ≤ Table.most_ranges }
{
    let mut low = 0;
    let mut many = table_read::byte(t, RANGES_IN);
    while 1 < many {
        let half = many / 2;
        low = later(t, low, low + half, p);
        many -= half;
    }
    low
}

// The managed range that has the ports: `near`, the next one, or one that is searched for; past all ranges, where none of these has them. Of the ranges from
// 100H, 200H, 2F8H and 3F8H on, the grants at 2F8H and 3F8H are in the ranges 2 and 3. The first isn't in the ranges 0 and 1, and is searched for; the second
// isn't in the range 2, and is in the next one.
fn range_with(t: &[u8], near: usize, base: usize, count: usize) -> usize
    requires { (length t.now ≡ table_size) × (ranges_in t.now ≤ Table.most_ranges) × (near ≤ Table.most_ranges) }
    ensures { (result ≤ Table.most_ranges) × (result < ranges_in t.now → InRange t.now result base count) }
{
    if in_range(t, near, base, count) {
        return near;
    }
    if in_range(t, near + 1, base, count) {
        return near + 1;
    }
    let found = range_from(t, base);
    if in_range(t, found, base, count) {
        return found;
    }
    MOST_RANGES
}

// The managed range that has the ports of the seat's I/O grant, where its card decodes all lines; else the range `near` of the grant before it.
pub fn range_near(t: &[u8], near: usize, s: Seat) -> usize
    requires { (length t.now ≡ table_size) × (ranges_in t.now ≤ Table.most_ranges) × (near ≤ Table.most_ranges) }
    ensures { (result ≤ Table.most_ranges) × RangeServes t.now result s.number }
{
    let Some(held) = seats::held(t, s) else {
        return near;
    };
    if held.ports.lines < MOST_LINES {
        return near;
    }
    range_with(t, near, held.ports.base, held.ports.count)
}
