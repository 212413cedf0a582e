// Whether ports meet some that are held: at a seat, or at any.
#![tactic(auto)]

ghost use Rattle.std.specs.Prelude.{◌<◌, ◌≤◌};
ghost use Rattle.facts.specs.Table;
ghost use Rattle.facts.specs.Says.{Says};
ghost use Rattle.facts.specs.Ports.{MeetsHeld};
ghost use Rattle.layout.specs.Reading.{facts_in};
ghost use Rattle.layout.specs.Sound.{Accepted};
ghost use Rattle.io_meeting.specs.Meeting.{MeetsAt};

use facts::{Ports, Seat};
use layout::MOST_SEATS;

// Whether the ports meet those that are held at the seat.
fn at(t: &[u8], ports: Ports, s: Seat) -> bool
    requires accepted { Accepted t.now }
    requires few { (ports.base < Table.all_ports) × (ports.count ≤ Table.all_ports) × (ports.lines ≤ Table.most_lines) }
    ensures { Says result (MeetsAt (facts_in t.now) ports s.number) }
{
    match seats::held(t, s) {
        Some(held) => io_ranges::meets(ports, held.ports),
        None => false,
    }
}

// Whether the ports meet some that are held.
pub fn some(t: &[u8], ports: Ports) -> bool
    requires accepted { Accepted t.now }
    requires few { (ports.base < Table.all_ports) × (ports.count ≤ Table.all_ports) × (ports.lines ≤ Table.most_lines) }
    ensures { Says result (MeetsHeld (facts_in t.now) ports) }
{
    (0..MOST_SEATS).any(|s| at(t, ports, Seat::new(s)))
}
