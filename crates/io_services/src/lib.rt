// RequestIO and ReleaseIO, on a table that is the image of a well-formed set.
#![tactic(auto)]

ghost use Rattle.std.specs.Prelude.{◌≡◌, ◌<◌, length};
ghost use Rattle.facts.specs.Packets.{with_word};
ghost use Rattle.facts.specs.Io.{request_io_length};
ghost use Rattle.layout.specs.Layout.{table_size, mark};
ghost use Rattle.layout.specs.Sound.{Accepted};
ghost use Rattle.io_bases.specs.Bases.{AskedFits, BaseIs};
ghost use Rattle.io_services.specs.Granting.{asked_entered, RequestServed, ReleaseServed};

use facts::{Code, Handle, IoAsked, Ports, Seat};
use io_packets::{BASE_AT, LENGTH};
use layout::MARKED;
use seats::NOBODY;
use service_checks::CardNeed;

// The record of no grant says no ports.
const NO_PORTS: Ports = Ports {
    base: 0,
    count: 0,
    lines: 0,
};

// The mark of what is shared, or not.
fn mark_of(shared: bool) -> usize
    ensures { result ≡ mark shared }
{
    if shared { MARKED } else { 0 }
}

// The grant that is asked for is entered at a base; "Success writes BasePort1."
fn enter_asked(t: &mut [u8], seat: Seat, h: Handle, base: usize, asked: IoAsked, p: &mut [u8])
    requires { (length t.old ≡ table_size) × (base < 65536) × AskedFits asked × (length p.old ≡ request_io_length) }
    ensures entered { t.new ≡ asked_entered t.old seat.number h.0 base asked }
    ensures written { p.new ≡ with_word p.old 2 base }
{
    let ports = Ports {
        base,
        count: asked.count,
        lines: asked.lines,
    };
    grants::enter_ports(t, seat, h, ports, mark_of(asked.shared));
    table_write::put_word(p, BASE_AT, base);
}

// The base is sought where there is none in the packet: each of the two has a frame of its own on the stack, which no other service pays for.
fn base_taken(t: &[u8], asked: IoAsked) -> Result<usize, Code>
    requires { Accepted t.now × AskedFits asked }
    ensures { BaseIs t.now asked result }
{
    if asked.base == 0 {
        io_bases::chosen(t, asked)
    } else {
        io_bases::named(t, asked)
    }
}

pub fn request(t: &mut [u8], h: Handle, p: &mut [u8]) -> Result<Handle, Code>
    requires { Accepted t.old }
    ensures { RequestServed h.0 p.old p.new t.old t.new result }
{
    let (_, seat) = service_checks::begin(t, h, p, LENGTH, CardNeed::Needed)?;
    io_packets::attributes_asked(p)?;
    io_packets::sizes_asked(p)?;
    let None = seats::held(t, seat) else {
        return Err(Code::InUse);
    };
    let asked = io_packets::asked(p);
    let base = base_taken(t, asked)?;
    enter_asked(t, seat, h, base, asked, p);
    Ok(h)
}

pub fn release(t: &mut [u8], h: Handle, p: &[u8]) -> Result<Handle, Code>
    requires { Accepted t.old }
    ensures { ReleaseServed h.0 p.now t.old t.new result }
{
    let (_, seat) = service_checks::begin(t, h, p, LENGTH, CardNeed::Ignored)?;
    io_packets::second_asked(p)?;
    let base = io_packets::base_asked(p);
    let count = io_packets::count_asked(p);
    grants::ports_of(t, seat, h, base, count)?;
    grants::enter_ports(t, seat, NOBODY, NO_PORTS, 0);
    Ok(h)
}
