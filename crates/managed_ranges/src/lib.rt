// Managed ranges of I/O ports, on a table that is the image of a well-formed set.
#![tactic(auto)]

ghost use Rattle.std.specs.Prelude.{◌≡◌, ◌+◌, ◌<◌, ◌≤◌, length};
ghost use Rattle.facts.specs.Table;
ghost use Rattle.layout.specs.Layout.{table_size};
ghost use Rattle.layout.specs.Reading.{ranges_in};
ghost use Rattle.layout.specs.Sound.{Accepted, RangesSound};
ghost use Rattle.managed_ranges.specs.Asked.{PortsNamedIs, PlaceOf, StartIs, FreeIs, FoundIs, Entered};
ghost use Rattle.managed_ranges.specs.Asked.{NextRangeIs, PutsRange, TakesRange, AddsRange, RemovesRange};

use facts::{Code, Ports, RangeAsked};
use layout::{
    ALL_PORTS, HANDLES_AT, MOST_LINES, MOST_RANGES, RANGE_COUNT_AT, RANGE_RESERVED_AT, RANGE_SIZE,
    RANGES_AT, RANGES_IN,
};

// The ports that an Add or a Remove names: "both need lines of 16 for I/O", "ports 0 or over 65,536 BAD_SIZE; a port past FFFF BAD_BASE".
fn ports_named(r: RangeAsked) -> Result<(usize, usize), Code>
    ensures { PortsNamedIs r.base r.count r.lines result }
{
    let base = r.base as usize;
    let count = r.count as usize;
    if usize::from(r.lines) != MOST_LINES {
        return Err(Code::BadAttribute);
    }
    if count == 0 || ALL_PORTS < count {
        return Err(Code::BadSize);
    }
    if ALL_PORTS < base + count {
        return Err(Code::BadBase);
    }
    Ok((base, count))
}

// How many ranges have a base below a number: where such a base belongs. The last ones are looked at first.
fn place(t: &[u8], from: usize) -> usize
    requires { (length t.now ≡ table_size) × (ranges_in t.now ≤ Table.most_ranges) × RangesSound t.now }
    ensures { PlaceOf t.now from result }
{
    for i in (0..table_read::byte(t, RANGES_IN)).rev() {
        if table_read::word(t, RANGES_AT + i * RANGE_SIZE) < from {
            return i + 1;
        }
    }
    0
}

// Where the range in the place i starts; past the last one, past FFFF.
fn start(t: &[u8], i: usize) -> usize
    requires { (length t.now ≡ table_size) × (ranges_in t.now ≤ Table.most_ranges) }
    ensures { StartIs t.now i result }
{
    if i < table_read::byte(t, RANGES_IN) {
        return table_read::word(t, RANGES_AT + i * RANGE_SIZE);
    }
    ALL_PORTS
}

// Where new ports belong, if none of them is managed: the ranges before and after that place are the nearest.
fn free(t: &[u8], base: usize, count: usize) -> Result<usize, Code>
    requires ranges { (length t.now ≡ table_size) × (ranges_in t.now ≤ Table.most_ranges) × RangesSound t.now }
    requires ports { (1 ≤ count) × (base + count ≤ Table.all_ports) }
    ensures { FreeIs t.now base count result }
{
    let i = place(t, base);
    if base < managed_search::end_before(t, i) {
        return Err(Code::InUse);
    }
    if start(t, i) < base + count {
        return Err(Code::InUse);
    }
    Ok(i)
}

// The new range's record in the place i: those from there on move one place up.
fn enter(t: &mut [u8], i: usize, base: usize, count: usize, reserved: u8)
    requires room { (length t.old ≡ table_size) × (i ≤ ranges_in t.old) × (ranges_in t.old < Table.most_ranges) }
    requires ports { (base < 65536) × (count < 4294967296) }
    ensures { Entered t.old t.new i base count reserved }
{
    let at = RANGES_AT + i * RANGE_SIZE;
    table_write::make_room(t, RANGES_IN, at, RANGE_SIZE, HANDLES_AT);
    table_write::put_word(t, at, base);
    table_write::put_long(t, at + RANGE_COUNT_AT, count);
    t[at + RANGE_RESERVED_AT] = reserved;
}

// The ports are put in, with their reserve mark: "a port already managed IN_USE; 32 ranges present OUT_OF_RESOURCE".
fn put(t: &mut [u8], base: usize, count: usize, reserved: u8) -> Result<(), Code>
    requires { Accepted t.old × (1 ≤ count) × (base + count ≤ Table.all_ports) }
    ensures { PutsRange base count reserved t.old t.new result }
{
    let i = free(t, base, count)?;
    if MOST_RANGES <= table_read::byte(t, RANGES_IN) {
        return Err(Code::OutOfResource);
    }
    enter(t, i, base, count, reserved);
    Ok(())
}

pub fn add(t: &mut [u8], r: RangeAsked) -> Result<(), Code>
    requires { Accepted t.old }
    ensures { AddsRange r.base r.count r.attributes r.lines t.old t.new result }
{
    let reserved = managed_changes::reserve_asked(r.attributes)?;
    let (base, count) = ports_named(r)?;
    put(t, base, count, reserved)
}

// The place of the range with just that base and count: "no range with just that base and count BAD_BASE".
fn find(t: &[u8], base: usize, count: usize) -> Result<usize, Code>
    requires { (length t.now ≡ table_size) × (ranges_in t.now ≤ Table.most_ranges) × RangesSound t.now }
    ensures { FoundIs t.now base count result }
{
    let i = place(t, base);
    let at = RANGES_AT + i * RANGE_SIZE;
    if i < table_read::byte(t, RANGES_IN)
        && table_read::word(t, at) == base
        && table_read::long(t, at + RANGE_COUNT_AT) == count
    {
        Ok(i)
    } else {
        Err(Code::BadBase)
    }
}

// The ports are taken out: "Remove is IN_USE if a live grant holds or is repeated at any port of the range" (K2), that is if a card that is granted ports
// answers at one of these.
fn take(t: &mut [u8], base: usize, count: usize) -> Result<(), Code>
    requires { Accepted t.old }
    ensures { TakesRange base count t.old t.new result }
{
    let i = find(t, base, count)?;
    let ports = Ports {
        base,
        count,
        lines: MOST_LINES,
    };
    if io_meeting::some(t, ports) {
        return Err(Code::InUse);
    }
    table_write::take_out(
        t,
        RANGES_IN,
        RANGES_AT + i * RANGE_SIZE,
        RANGE_SIZE,
        HANDLES_AT,
    );
    Ok(())
}

pub fn remove(t: &mut [u8], r: RangeAsked) -> Result<(), Code>
    requires { Accepted t.old }
    ensures { RemovesRange r.base r.count r.attributes r.lines t.old t.new result }
{
    managed_changes::no_bit(r.attributes)?;
    let (base, count) = ports_named(r)?;
    take(t, base, count)
}

// The range with the lowest base that isn't below a number: its base and its count.
pub fn next(t: &[u8], from: usize) -> Option<(usize, usize)>
    requires { Accepted t.now }
    ensures { NextRangeIs t.now from result }
{
    let i = place(t, from);
    if table_read::byte(t, RANGES_IN) <= i {
        return None;
    }
    let at = RANGES_AT + i * RANGE_SIZE;
    Some((
        table_read::word(t, at),
        table_read::long(t, at + RANGE_COUNT_AT),
    ))
}
