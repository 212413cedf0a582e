// The IRQ grants: a seat's record, and the company that its grant keeps with those of the seats below it.
#![tactic(auto)]

ghost use Rattle.std.specs.Prelude.{◌≡◌, ◌+◌, ◌<◌, ◌≤◌, length};
ghost use Rattle.facts.specs.Table;
ghost use Rattle.facts.specs.Table.{socket_at};
ghost use Rattle.facts.specs.Says.{Says};
ghost use Rattle.layout.specs.Layout.{table_size};
ghost use Rattle.layout.specs.Reading.{sockets_in, clients_in};
ghost use Rattle.layout.specs.Sound.{LiveIn, IoPlaceSound, IrqPlaceSound, CountsSound, ClientsSound};
ghost use Rattle.seats.specs.Sound.{IosSound, IrqsSound};
ghost use Rattle.table_irqs.specs.Holding.{HoldingIs};

use facts::{Handle, Seat};
use layout::{
    ALL_LEVELS, IRQ_LEVEL_AT, IRQ_MANNER_AT, IRQ_SIZE, IRQS_AT, LEVEL_SIZE, LEVELS_AT, MARKED,
    MOST_SEATS, SOCKETS_IN,
};

// Where the records of the seats that can be used end.
const IRQS_END: usize = IRQS_AT + MOST_SEATS * IRQ_SIZE;

// The manners are 0 to 3.
const LAST_MANNER: usize = 3;

// A level and a manner are one number: the level's manners stand side by side, so that a set of them has a bit for each.
const ALL_MANNERS: usize = LAST_MANNER + 1;

// Whether the client of the IRQ grant at the seat `s` is live: it is where it holds the seat's I/O grant too, as most often.
fn irq_holder_live(t: &[u8], client: Handle, s: Seat) -> bool
    requires { (length t.now ≡ table_size) × (clients_in t.now ≤ Table.most_clients) × IoPlaceSound t.now s.number }
    ensures { Says result (LiveIn t.now client.0) }
{
    seats::io_held_by(t, s, client) || client_record::live(t, client)
}

// "every grant .. has a live client and a socket below the count": the IRQ grant at a seat of such a socket, or a record that is all zero.
fn irq_place_sound(t: &[u8], s: Seat) -> bool
    requires sound { (length t.now ≡ table_size) × (socket_at s.number < sockets_in t.now) × CountsSound t.now × ClientsSound t.now }
    requires place_sound { IoPlaceSound t.now s.number }
    ensures { Says result (IrqPlaceSound t.now s.number) }
{
    let at = seats::irq_place(s);
    if table_read::zero(t, at, at + IRQ_SIZE) {
        return true;
    }
    let level = table_read::byte(t, at + IRQ_LEVEL_AT);
    level < ALL_LEVELS
        && table_read::byte(t, LEVELS_AT + level * LEVEL_SIZE) == MARKED
        && table_read::byte(t, at + IRQ_MANNER_AT) <= LAST_MANNER
        && irq_holder_live(t, table_read::handle(t, at), s)
}

// The level that a grant holds: in its own manner, and in each manner that doesn't go with it. For level 5 held as dynamic level, whose number is 2, these
// are the number 5 * 4 + 2, and 20, 21 and 23.
#[derive(Clone, Copy)]
pub struct Holding {
    pub own: u64,
    pub against: u64,
}

// What the IRQ grant at the seat `s` holds.
fn irq_holding(t: &[u8], s: Seat) -> Holding
    requires { (length t.now ≡ table_size) × IrqPlaceSound t.now s.number }
    ensures { HoldingIs t.now s.number result }
{
    let at = seats::irq_place(s);
    if table_read::word(t, at) == 0 {
        return Holding { own: 0, against: 0 };
    }
    let manner = table_read::byte(t, at + IRQ_MANNER_AT);
    let first = table_read::byte(t, at + IRQ_LEVEL_AT) * ALL_MANNERS;
    let own = 1 << (first + manner);
    let against = irq_levels::apart(table_read::manner_of(manner)) << first;
    Holding { own, against }
}

// The IRQ grants at all seats, of which those of sockets from the count on are zero: `held` are the levels that the grants passed hold, in their manners.
// "grants meet only as demand 3 allows": none of them holds the level of the next one in a manner that doesn't go with its own.
pub fn irqs_sound(t: &[u8]) -> bool
    requires { (length t.now ≡ table_size) × CountsSound t.now × ClientsSound t.now × IosSound t.now }
    ensures { Says result (IrqsSound t.now) }
{
    if table_read::zero(t, IRQS_AT, IRQS_END) {
        return true;
    }
    let sockets = table_read::byte(t, SOCKETS_IN);
    if !table_read::zero(t, IRQS_AT + sockets * IRQ_SIZE, IRQS_END) {
        return false;
    }
    let mut held = 0;
    for s in 0..sockets {
        let seat = Seat::new(s);
        if !irq_place_sound(t, seat) {
            return false;
        }
        let holding = irq_holding(t, seat);
        if held & holding.against != 0 {
            return false;
        }
        held |= holding.own;
    }
    true
}
