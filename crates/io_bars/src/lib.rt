// The bars of a table: for each live grant the bases at which ports that are asked for meet it, and for each gap between the managed ranges those at
// which their card answers in it.
#![tactic(auto)]

ghost use Rattle.std.specs.Prelude.{◌≡◌, ◌≤◌, ◌<◌};
ghost use Rattle.facts.specs.Table;
ghost use Rattle.layout.specs.Sound.{Accepted};
ghost use Rattle.io_bars.specs.Bars.{BarIs, seat_ports, PortsFit, GrantBarsOf, GapBars};

use facts::{Ports, Seat};
use io_answering::Gaps;
use io_obstacles::{Bar, Bars, GAP_PLACES, GRANT_PLACES};
use layout::{ALL_PORTS, MOST_LINES, MOST_SEATS};
use seats::HeldPorts;

const NO_PORTS: Ports = Ports {
    base: 0,
    count: 0,
    lines: 0,
};

// The bases at which so many ports, decoded by so many lines, meet others: from where their last port is the first of those on, up to where their first
// port is the last. Four ports meet the eight from 300 on at 2FD to 307, which are 4 + 8 - 1 bases, and again after each period.
fn bar_of(ports: Ports, count: usize, lines: usize) -> Bar
    requires { PortsFit ports × (1 ≤ count) × (count < 256) × (lines ≤ Table.most_lines) }
    ensures { BarIs ports count lines result }
{
    let start = (ports.base + ALL_PORTS + 1 - count) % ALL_PORTS;
    let ones = io_obstacles::limit_of(lines.min(ports.lines));
    let width = if ports.count == 0 {
        0
    } else {
        ports.count + count - 1
    };
    Bar {
        start: start as u16,
        ones,
        width: width as u16,
    }
}

// The ports that are held at a seat; of nothing, none.
fn ports_of(held: Option<HeldPorts>) -> Ports
    ensures { result ≡ seat_ports held }
{
    match held {
        Some(x) => x.ports,
        None => NO_PORTS,
    }
}

// The bars of the live grants are entered, each in the place of its seat.
pub fn grant_bars(t: &[u8], count: usize, lines: usize, bars: &mut Bars<GRANT_PLACES>)
    requires { Accepted t.now × (1 ≤ count) × (count < 256) × (lines ≤ Table.most_lines) }
    ensures { GrantBarsOf t.now count lines bars.new }
{
    for s in 0..MOST_SEATS {
        let ports = ports_of(seats::held(t, Seat::new(s)));
        bars.enter(s, bar_of(ports, count, lines));
    }
}

// The bars of the gaps are entered, each in the place of its gap; for a card that decodes all lines, which answers at its own ports alone, the bars stay as
// they are. A card that decodes 10 lines and asks for four ports answers in a gap of 16 ports from 6F0H on at the bases 6EDH to 6FFH, and so at 2EDH to 2FFH:
// a bar of 4 + 16 - 1 bases.
pub fn gap_bars(t: &[u8], count: usize, lines: usize, bars: &mut Bars<GAP_PLACES>)
    requires { Accepted t.now × (1 ≤ count) × (count < 256) × (lines ≤ Table.most_lines) }
    ensures { GapBars t.now count lines bars.new }
{
    if lines == MOST_LINES {
        return;
    }
    let mut gaps = Gaps::none();
    gaps.fill(t, lines);
    for i in 0..GAP_PLACES {
        bars.enter(i, bar_of(gaps.at(i), count, lines));
    }
}
