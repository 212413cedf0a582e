// The I/O grants: a seat's record, and all of them together.
#![tactic(auto)]

mod ranges;

ghost use Rattle.std.specs.Prelude.{◌≡◌, ◌<◌, ◌≤◌, length};
ghost use Rattle.facts.specs.Table;
ghost use Rattle.facts.specs.Table.{socket_at};
ghost use Rattle.facts.specs.Says.{Says};
ghost use Rattle.layout.specs.Layout.{table_size};
ghost use Rattle.layout.specs.Reading.{sockets_in, ranges_in};
ghost use Rattle.layout.specs.Sound.{RangesSound, IoPlaceSound, CountsSound, ClientsSound};
ghost use Rattle.io_answering.specs.Rows.{GapsAre};
ghost use Rattle.seats.specs.Seats.{range};
ghost use Rattle.seats.specs.Sound.{IosSound};
ghost use Rattle.table_ios.specs.Parts.{RangeHas, RangeServes, PortsSound, LinesAt, FewestLines, GapsServe};

use crate::ranges::{ports_managed, range_near};
use facts::{Ports, Seat};
use io_answering::Gaps;
use layout::{
    IO_SHARED_AT, IO_SIZE, IO_SPARE_AT, IOS_AT, MARKED, MOST_LINES, MOST_SEATS, SOCKETS_IN,
};
use table_company::{companies_kept, io_blocks};

// Where the records of the seats that can be used end.
const IOS_END: usize = IOS_AT + MOST_SEATS * IO_SIZE;

// "granted .. ports are managed; an I/O grant has base 1 or more, lines 1 to 16 and a count RequestIO allows"; and wherever its card answers is managed (K2)
fn ports_sound(t: &[u8], gaps: &Gaps, near: usize, ports: Ports) -> bool
    requires ranges { (length t.now ≡ table_size) × (ranges_in t.now ≤ Table.most_ranges) × RangesSound t.now × GapsAre t.now ports.lines gaps.now }
    requires ports { (ports.base < Table.all_ports) × (ports.count ≤ Table.most_asked) × RangeHas t.now near ports }
    ensures { Says result (PortsSound t.now ports) }
{
    ports.base != 0
        && ports.count != 0
        && ports.lines != 0
        && ports.lines <= MOST_LINES
        && ports.count <= io_ranges::power(ports.lines)
        && ports_managed(t, gaps, near, ports)
}

// "every grant .. has a live client and a socket below the count": the I/O grant at a seat of such a socket, or a record that is all zero.
fn io_place_sound(t: &[u8], gaps: &Gaps, near: usize, s: Seat) -> bool
    requires sound { (length t.now ≡ table_size) × (socket_at s.number < sockets_in t.now) × CountsSound t.now × ClientsSound t.now × RangesSound t.now }
    requires gaps_serve { GapsServe t.now gaps.now × RangeServes t.now near s.number }
    ensures { Says result (IoPlaceSound t.now s.number) }
{
    let at = seats::io_place(s);
    let Some(held) = seats::held(t, s) else {
        return table_read::zero(t, at, at + IO_SIZE);
    };
    if table_read::long(t, at + IO_SPARE_AT) != 0 {
        return false;
    }
    if MARKED < table_read::byte(t, at + IO_SHARED_AT) {
        return false;
    }
    client_record::live(t, held.client) && ports_sound(t, gaps, near, held.ports)
}

// The lines that the card of the seat's I/O grant decodes; all, where there is no grant.
fn lines_at(t: &[u8], s: Seat) -> usize
    requires { length t.now ≡ table_size }
    ensures { LinesAt t.now s.number result }
{
    let Some(held) = seats::held(t, s) else {
        return MOST_LINES;
    };
    held.ports.lines
}

// The fewest lines that a card of any I/O grant decodes; all, where there is no grant.
fn fewest_lines(t: &[u8]) -> usize
    requires { (length t.now ≡ table_size) × CountsSound t.now }
    ensures { FewestLines t.now result }
{
    let sockets = table_read::byte(t, SOCKETS_IN);
    let mut fewest = MOST_LINES;
    for s in 0..sockets {
        fewest = fewest.min(lines_at(t, Seat::new(s)));
    }
    fewest
}

// The I/O grants at all seats, of which those of sockets from the count on are zero: `passed` are the blocks in which the grants passed answer, `common` those that
// one of them has in common with those before it, and `near` is the managed range of the last one. Where no block is in common, no two grants meet; else they are
// compared.
pub fn ios_sound(t: &[u8]) -> bool
    requires { (length t.now ≡ table_size) × CountsSound t.now × ClientsSound t.now × RangesSound t.now }
    ensures { Says result (IosSound t.now) }
{
    if table_read::zero(t, IOS_AT, IOS_END) {
        return true;
    }
    let sockets = table_read::byte(t, SOCKETS_IN);
    if !table_read::zero(t, IOS_AT + sockets * IO_SIZE, IOS_END) {
        return false;
    }
    let mut gaps = Gaps::none();
    gaps.fill(t, fewest_lines(t));
    let mut passed: u64 = 0;
    let mut common: u64 = 0;
    let mut near = 0;
    for s in 0..sockets {
        let seat = Seat::new(s);
        near = range_near(t, near, seat);
        if !io_place_sound(t, &gaps, near, seat) {
            return false;
        }
        let own = io_blocks(t, seat);
        common = common | passed & own;
        passed = passed | own;
    }
    if common == 0 {
        return true;
    }
    companies_kept(t, sockets)
}
