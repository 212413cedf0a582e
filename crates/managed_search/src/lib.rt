// A search among the managed ranges: where one ends, and whether ports are managed.
#![tactic(auto)]

ghost use Rattle.std.specs.Prelude.{◌≡◌, ℕ, ◌+◌, ◌<◌, ◌≤◌, length};
ghost use Rattle.facts.specs.Table;
ghost use Rattle.facts.specs.Says.{Says};
ghost use Rattle.facts.specs.Ports.{Within};
ghost use Rattle.layout.specs.Layout.{table_size};
ghost use Rattle.layout.specs.Reading.{ranges_in};
ghost use Rattle.layout.specs.Sound.{ManagedIn, RangesSound, range_base, range_count, end_before_lem};
ghost use Rattle.managed_search.specs.Skipping.{Skipped};

use layout::{RANGE_COUNT_AT, RANGE_SIZE, RANGES_AT, RANGES_IN};

// A search among the ranges looks first at every sixth: of 32, at five at most, and then at six at most.
const STRIDE: usize = 6;

// Where the range `i` ends.
pub fn range_end(t: &[u8], i: usize) -> usize
    requires { (length t.now ≡ table_size) × (i < Table.most_ranges) }
    ensures { result ≡ range_base t.now i + range_count t.now i }
{
    let at = RANGES_AT + i * RANGE_SIZE;
    table_read::word(t, at) + table_read::long(t, at + RANGE_COUNT_AT)
}

// Where the range listed before the place `i` ends, or 0.
pub fn end_before(t: &[u8], i: usize) -> usize
    requires { (length t.now ≡ table_size) × (i ≤ Table.most_ranges) }
    ensures { result ≡ end_before_lem t.now i }
{
    if i == 0 {
        return 0;
    }
    range_end(t, i - 1)
}

// Where a search for the range that has a port begins: no range before that place has it. Of every sixth range, the last that starts at or before it. For a
// port of the range 20 of 32 the ranges 6, 12, 18 and 24 are looked at, and the search begins at 18.
fn search_from(t: &[u8], p: usize) -> usize
    requires { (length t.now ≡ table_size) × (ranges_in t.now ≤ Table.most_ranges) × RangesSound t.now }
    ensures { Skipped t.now p result }
{
    let ranges = table_read::byte(t, RANGES_IN);
    let mut from = 0;
    for i in (STRIDE..ranges).step_by(STRIDE) {
        if p < table_read::word(t, RANGES_AT + i * RANGE_SIZE) {
            break;
        }
        from = i;
    }
    from
}

// Whether all the ports are managed: one pass over the ranges, which are in order. `p` is the first port that no range passed has; where a range
// starts past it, no range that follows has it.
pub fn managed(t: &[u8], base: usize, count: usize) -> bool
    requires ranges { (length t.now ≡ table_size) × (ranges_in t.now ≤ Table.most_ranges) × RangesSound t.now }
    requires ports { (base < Table.all_ports) × (count ≤ Table.all_ports) }
    ensures { Says result ((p : ℕ) → Within p base count → ManagedIn t.now p) }
{
    let ranges = table_read::byte(t, RANGES_IN);
    let end = base + count;
    let first = search_from(t, base);
    let mut p = base;
    for i in first..ranges {
        let next = range_end(t, i);
        if next <= p {
            continue;
        }
        if p < table_read::word(t, RANGES_AT + i * RANGE_SIZE) {
            return end <= p;
        }
        if end <= next {
            return true;
        }
        p = next;
    }
    end <= p
}
