// The gaps between the managed ranges, and whether a card answers in one of them.
ghost use Rattle.std.specs.Prelude.{◌≡◌, ◌+◌, ◌≤◌, ◌<◌, ℕ, length, slice_index};
ghost use Rattle.facts.specs.Table;
ghost use Rattle.facts.specs.Says.{Says};
ghost use Rattle.layout.specs.Layout.{table_size};
ghost use Rattle.layout.specs.Reading.{ranges_in};
ghost use Rattle.layout.specs.Sound.{RangesSound};
ghost use Rattle.io_answering.specs.Gaps.{most_gaps, most_counted};

use crate::ahead;
use facts::Ports;
use layout::{ALL_PORTS, MOST_LINES, MOST_RANGES, RANGE_SIZE, RANGES_AT, RANGES_IN};

// Room for the gap before each range.
const MOST_GAPS: usize = MOST_RANGES;

// A gap of so many ports or more is one in which every card answers that doesn't decode all lines: one of 15 lines has an alias in each 2^15 ports.
const MOST_COUNTED: usize = 32768;

// The gaps, in rows of 16-bit numbers, so that many are looked at side by side: where each begins, and how many ports it has, up to `MOST_COUNTED`; a place
// that isn't used has no port. Each range has the gap before it. Before the first one this is the gap past the last one too, since a card that doesn't
// decode all lines doesn't tell port 0 from one past FFFFH: with the one range 100H to F7FFH the gap from F800H on has 900H ports.
#[derive(Drop)]
pub struct Gaps {
    starts: [u16; MOST_GAPS],
    ports: [u16; MOST_GAPS],
    ghost starts_fit: { (i : ℕ) → i < most_gaps → slice_index starts i ≤ Table.all_ports },
    ghost ports_fit: { (i : ℕ) → i < most_gaps → slice_index ports i ≤ most_counted },
}

impl Gaps {
    ghost use Rattle.std.specs.Prelude.{◌≢◌, ◌-◌};
    ghost use Rattle.io_answering.specs.Rows.{gap_at, counted, MeetsRows, GapsAre};

    // No gaps.
    pub fn none() -> Self
        ensures { (i : ℕ) → (gap_at result i).count ≡ 0 }
    {
        Gaps {
            starts: [0; MOST_GAPS],
            ports: [0; MOST_GAPS],
        }
    }

    // The gap in a place.
    pub fn at(&self, i: usize) -> Ports
        requires { i < most_gaps }
        ensures { result ≡ gap_at self.now i }
    {
        Ports {
            base: self.starts[i] as usize,
            count: self.ports[i] as usize,
            lines: MOST_LINES,
        }
    }

    // A gap is entered in its place.
    fn enter(&mut self, i: usize, start: usize, ports: usize)
        requires { i < most_gaps }
        ensures here { gap_at self.new i ≡ counted start ports }
        ensures others { (j : ℕ) → j ≢ i → gap_at self.new j ≡ gap_at self.old j }
    {
        self.starts[i] = (start % ALL_PORTS) as u16;
        self.ports[i] = ports.min(MOST_COUNTED) as u16;
    }

    // Where there are no gaps yet, those between the managed ranges are entered, for cards of so many lines; none for one that decodes all, which answers
    // at its own ports alone. `end` is where the ranges passed end, and the gap begins.
    pub fn fill(&mut self, t: &[u8], lines: usize)
        requires ranges { (length t.now ≡ table_size) × (ranges_in t.now ≤ Table.most_ranges) × RangesSound t.now }
        requires no_gaps { (i : ℕ) → (gap_at self.old i).count ≡ 0 }
        ensures { GapsAre t.now lines self.new }
    {
        if lines == MOST_LINES {
            return;
        }
        let ranges = table_read::byte(t, RANGES_IN);
        let mut end = 0;
        for i in 0..ranges {
            let start = table_read::word(t, RANGES_AT + i * RANGE_SIZE);
            self.enter(i, end, start - end);
            end = managed_search::range_end(t, i);
        }
        let first = self.ports[0] as usize;
        self.enter(0, end, ALL_PORTS - end + first);
    }

    // Whether a card with these ports answers in no gap: how far it is ahead of each, or-ed together with no early exit, so that many are looked at side by
    // side. A card of 10 lines at 2F8 answers at 6F8 as well: with the gap from 6F0 on, of 16 ports, it is 8 ports ahead, and the answer is no.
    pub(crate) fn clear(&self, ports: Ports) -> bool
        requires { (ports.base ≤ Table.all_ports) × (1 ≤ ports.count) × (ports.count < 256) × (ports.lines < Table.most_lines) }
        ensures { Says result (MeetsRows self.now ports → ⊥) }
    {
        let period = io_ranges::power(ports.lines);
        let ones = period - 1;
        let last = (ports.base + ports.count - 1) & ones;
        let more = ports.count - 1;
        let mut some: u16 = 0;
        for i in 0..MOST_GAPS {
            some |= ahead(
                self.starts[i],
                self.ports[i],
                last as u16,
                more as u16,
                ones as u16,
            );
        }
        some == 0
    }
}
