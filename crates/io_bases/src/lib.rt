// The base that a request for I/O ports takes, on a table that is the image of a well-formed set: the one that it names, or the first candidate.
#![tactic(auto)]

ghost use Rattle.std.specs.Prelude.{◌≡◌, ◌≢◌, ◌&&◌, ◌||◌, not};
ghost use Rattle.facts.specs.Says.{Says};
ghost use Rattle.layout.specs.Reading.{facts_in};
ghost use Rattle.layout.specs.Sound.{Accepted};
ghost use Rattle.io_bases.specs.Bases.{AskedFits, StandsAt, PortsAre, WayIs, BaseIs};

use facts::{Code, IoAsked, Ports, Seat};
use io_answering::Gaps;
use layout::{ALL_PORTS, MOST_SEATS};
use seats::HeldPorts;

// "Base not 0: a port past FFFF or unmanaged, BAD_BASE"; so is one where the card would answer at a port that isn't managed (K2).
fn ports_asked(t: &[u8], asked: IoAsked) -> Result<(), Code>
    requires { Accepted t.now × AskedFits asked }
    ensures { PortsAre t.now asked result }
{
    let ports = Ports {
        base: asked.base,
        count: asked.count,
        lines: asked.lines,
    };
    if ALL_PORTS < ports.base + ports.count {
        return Err(Code::BadBase);
    }
    let mut gaps = Gaps::none();
    gaps.fill(t, ports.lines);
    if !io_answering::managed(t, &gaps, ports) {
        return Err(Code::BadBase);
    }
    Ok(())
}

// "First Shared is set or the two don't both share"
fn apart(asked: IoAsked, held: HeldPorts) -> bool
    ensures { result ≡ (asked.first || not (asked.shared && held.shared)) }
{
    asked.first || !(asked.shared && held.shared)
}

// Whether what is held at the seat is in the way of a base that is named: the ports meet, and First Shared is set or the two don't both share.
fn stands(t: &[u8], asked: IoAsked, s: Seat) -> bool
    requires { Accepted t.now × AskedFits asked }
    ensures { Says result (StandsAt (facts_in t.now) asked s.number) }
{
    let Some(x) = seats::held(t, s) else {
        return false;
    };
    let ports = Ports {
        base: asked.base,
        count: asked.count,
        lines: asked.lines,
    };
    io_ranges::meets(ports, x.ports) && apart(asked, x)
}

// "It meets a live grant, and First Shared is set or the two don't both share: IN_USE."
fn in_the_way(t: &[u8], asked: IoAsked) -> Result<(), Code>
    requires { Accepted t.now × AskedFits asked }
    ensures { WayIs t.now asked result }
{
    if (0..MOST_SEATS).any(|s| stands(t, asked, Seat::new(s))) {
        return Err(Code::InUse);
    }
    Ok(())
}

// "Base not 0": the base that is taken, or the code of why there is none. This and `chosen` stay out of line, so that each has a frame of its own on the
// stack.
#[inline(never)]
pub fn named(t: &[u8], asked: IoAsked) -> Result<usize, Code>
    requires { Accepted t.now × AskedFits asked × (asked.base ≢ 0) }
    ensures { BaseIs t.now asked result }
{
    ports_asked(t, asked)?;
    in_the_way(t, asked)?;
    Ok(asked.base)
}

// "Base 0: candidates .. none: IN_USE."
#[inline(never)]
pub fn chosen(t: &[u8], asked: IoAsked) -> Result<usize, Code>
    requires { Accepted t.now × AskedFits asked × (asked.base ≡ 0) }
    ensures { BaseIs t.now asked result }
{
    let Some(base) = io_candidates::choose(t, asked) else {
        return Err(Code::InUse);
    };
    Ok(base)
}
