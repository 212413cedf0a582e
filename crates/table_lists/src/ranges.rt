// The managed ranges: their records, in the order of their ports.
ghost use Rattle.std.specs.Prelude.{◌≡◌, ◌<◌, ◌≤◌, eqb, length};
ghost use Rattle.facts.specs.Table;
ghost use Rattle.facts.specs.Says.{Says};
ghost use Rattle.layout.specs.Layout.{table_size};
ghost use Rattle.layout.specs.Reading.{ranges_in};
ghost use Rattle.layout.specs.Sound.{RangesSound};
ghost use Rattle.table_lists.specs.Parts.{RangeFollows, RangeMarked};

use layout::{
    ALL_PORTS, MARKS, RANGE_COUNT_AT, RANGE_RESERVED_AT, RANGE_SIZE, RANGES_AT, RANGES_IN,
};

// Whether the range `i` starts at or past `low` and has a port.
fn range_follows(t: &[u8], i: usize, low: usize) -> bool
    requires { (length t.now ≡ table_size) × (i < Table.most_ranges) }
    ensures { Says result (RangeFollows t.now low i) }
{
    let at = RANGES_AT + i * RANGE_SIZE;
    let base = table_read::word(t, at);
    let count = table_read::long(t, at + RANGE_COUNT_AT);
    low <= base && count != 0
}

// What is wrong with the mark of the range `i`: 0 if nothing is.
fn mark_flaw(t: &[u8], i: usize) -> u8
    requires { (length t.now ≡ table_size) × (i < Table.most_ranges) }
    ensures { Says (eqb result 0) (RangeMarked t.now i) }
{
    let at = RANGES_AT + i * RANGE_SIZE + RANGE_RESERVED_AT;
    t[at] / MARKS
}

// Each range starts at or past the end of the one before it, so all lie within the ports where the last does.
pub fn ranges_sound(t: &[u8]) -> bool
    requires { (length t.now ≡ table_size) × (ranges_in t.now ≤ Table.most_ranges) }
    ensures { Says result (RangesSound t.now) }
{
    let ranges = table_read::byte(t, RANGES_IN);
    let mut low = 0;
    let mut flaws = 0;
    for i in 0..ranges {
        if !range_follows(t, i, low) {
            return false;
        }
        flaws |= mark_flaw(t, i);
        low = managed_search::range_end(t, i);
    }
    flaws == 0 && low <= ALL_PORTS
}
