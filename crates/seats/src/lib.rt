// Seats: where the record of each grant stands, and what is held there. Whatever the bytes say, a seat is read once, into a value.
#![tactic(auto)]

ghost use Rattle.std.specs.Prelude.{◌≡◌, ◌+◌, ◌<◌, ◌≤◌, length};
ghost use Rattle.facts.specs.Says.{Says};
ghost use Rattle.layout.specs.Layout.{table_size, io_size, irq_size};
ghost use Rattle.layout.specs.Reading.{io_place_lem, irq_place_lem};
ghost use Rattle.seats.specs.Seats.{Recorded, HeldIs, LevelHeldIs, IoHeldBy, IrqHeldBy};

use facts::{Handle, Manner, Ports, Seat};
use layout::{
    IO_BASE_AT, IO_COUNT_AT, IO_LINES_AT, IO_SHARED_AT, IO_SIZE, IOS_AT, IRQ_LEVEL_AT,
    IRQ_MANNER_AT, IRQ_SIZE, IRQS_AT, MARKED,
};

// Where the record of a seat's I/O grant begins, and that of its IRQ grant.
pub fn io_place(s: Seat) -> usize
    ensures { (result ≡ io_place_lem s.number) × (result + io_size ≤ table_size) }
{
    IOS_AT + s.number * IO_SIZE
}

pub fn irq_place(s: Seat) -> usize
    ensures { (result ≡ irq_place_lem s.number) × (result + irq_size ≤ table_size) }
{
    IRQS_AT + s.number * IRQ_SIZE
}

// The handle that is never live: the record of no grant says it.
pub const NOBODY: Handle = Handle(0);

// Whether the record at a place is that of a grant of this client. Nobody's handle has none.
fn recorded(t: &[u8], at: usize, client: Handle) -> bool
    requires { at + 1 < length t.now }
    ensures { Says result (Recorded t.now at client.0) }
{
    client != NOBODY && table_read::handle(t, at) == client
}

// A range of ports that is held: by this client, at these lines, shared or not.
#[derive(Clone, Copy, Debug, PartialEq, Eq)]
pub struct HeldPorts {
    pub client: Handle,
    pub ports: Ports,
    pub shared: bool,
}

// What a seat's I/O grant holds, if there is one.
pub fn held(t: &[u8], s: Seat) -> Option<HeldPorts>
    requires { length t.now ≡ table_size }
    ensures { HeldIs t.now s.number result }
{
    let at = io_place(s);
    let client = table_read::handle(t, at);
    if client == NOBODY {
        return None;
    }
    let base = table_read::word(t, at + IO_BASE_AT);
    let count = table_read::byte(t, at + IO_COUNT_AT);
    let lines = table_read::byte(t, at + IO_LINES_AT);
    let shared = table_read::byte(t, at + IO_SHARED_AT) == MARKED;
    Some(HeldPorts {
        client,
        ports: Ports { base, count, lines },
        shared,
    })
}

// Whether the client holds the seat's I/O grant.
pub fn io_held_by(t: &[u8], s: Seat, client: Handle) -> bool
    requires { length t.now ≡ table_size }
    ensures { Says result (IoHeldBy t.now client.0 s.number) }
{
    recorded(t, io_place(s), client)
}

// A level that is held: by this client, in this manner.
#[derive(Clone, Copy, Debug, PartialEq, Eq)]
pub struct HeldLevel {
    pub client: Handle,
    pub level: usize,
    pub manner: Manner,
}

// What a seat's IRQ grant holds, if there is one.
pub fn level_held(t: &[u8], s: Seat) -> Option<HeldLevel>
    requires { length t.now ≡ table_size }
    ensures { LevelHeldIs t.now s.number result }
{
    let at = irq_place(s);
    let client = table_read::handle(t, at);
    if client == NOBODY {
        return None;
    }
    let level = table_read::byte(t, at + IRQ_LEVEL_AT);
    let manner = table_read::manner_of(table_read::byte(t, at + IRQ_MANNER_AT));
    Some(HeldLevel {
        client,
        level,
        manner,
    })
}

// Whether the client holds the seat's IRQ grant.
pub fn irq_held_by(t: &[u8], s: Seat, client: Handle) -> bool
    requires { length t.now ≡ table_size }
    ensures { Says result (IrqHeldBy t.now client.0 s.number) }
{
    recorded(t, irq_place(s), client)
}
