// Where a card answers: at its own ports and at every port that its lines don't tell from one of them. Whether all of these are managed, by the gaps
// between the managed ranges.
#![tactic(auto)]

ghost use Rattle.std.specs.Prelude.{◌≡◌, ◌+◌, ◌≤◌, ◌<◌, length};
ghost use Rattle.facts.specs.Table;
ghost use Rattle.facts.specs.Says.{Says};
ghost use Rattle.layout.specs.Layout.{table_size};
ghost use Rattle.layout.specs.Reading.{ranges_in};
ghost use Rattle.layout.specs.Sound.{RangesSound};
ghost use Rattle.io_answering.specs.Gaps.{most_counted, AllManagedIn};
ghost use Rattle.io_answering.specs.Rows.{LowBits, reach_of_lem, ahead_of, GapsAre};

use facts::Ports;
use layout::{ALL_PORTS, MOST_LINES};

mod gaps;

pub use gaps::Gaps;

// How far a gap and so many more ports reach; a gap without a port reaches nowhere.
fn reach_of(ports: u16, more: u16) -> u16
    requires { (ports ≤ most_counted) × (more < 256) }
    ensures { result ≡ reach_of_lem ports more }
{
    if ports == 0 {
        return 0;
    }
    ports + more
}

// How far a card's last port, which lies so far in the period, has to move to be past a gap and its own other ports past it too; 0 where it answers at no
// port of the gap. By 10 lines the last of eight ports from 2F8H on lies 15 ports past the start of a gap from 6F0H on: 2FFH - 2F0H. The gap's 16 ports
// and the card's seven others reach 23 ports, so it has to move by 8.
fn ahead(base: u16, ports: u16, last: u16, more: u16, ones: u16) -> u16
    requires { (ports ≤ most_counted) × (last ≤ ones) × (more < 256) × LowBits ones }
    ensures { result ≡ ahead_of base ports last more (ones + 1) }
{
    let behind = (last + (ones + 1) - (base & ones)) & ones;
    let reach = reach_of(ports, more);
    if reach <= behind {
        return 0;
    }
    reach - behind
}

// Whether the ports are managed, and every other where a card with them answers. One that decodes all lines answers nowhere else.
pub fn managed(t: &[u8], gaps: &Gaps, ports: Ports) -> bool
    requires ranges { (length t.now ≡ table_size) × (ranges_in t.now ≤ Table.most_ranges) × RangesSound t.now × GapsAre t.now ports.lines gaps.now }
    requires ports { (ports.base < Table.all_ports) × (1 ≤ ports.count) × (ports.count < 256) × (ports.lines ≤ Table.most_lines) }
    ensures { Says result (AllManagedIn t.now ports) }
{
    if ports.lines == MOST_LINES {
        return managed_search::managed(t, ports.base, ports.count);
    }
    if ALL_PORTS < ports.base + ports.count {
        return false;
    }
    gaps.clear(ports)
}
