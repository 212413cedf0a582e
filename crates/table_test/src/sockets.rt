// The marks of the sockets' cards, and what all sockets have.
ghost use Rattle.std.specs.Prelude.{◌≡◌, ◌+◌, length};
ghost use Rattle.facts.specs.Says.{Says};
ghost use Rattle.layout.specs.Layout.{table_size};
ghost use Rattle.layout.specs.Sound.{CountsSound, ClientsSound, RangesSound};
ghost use Rattle.table_test.specs.Sockets.{CardsMarked, CardsEnd, CardsSound, SocketsSound};

use layout::{CARDS_AT, MARKS, MOST_SOCKETS, SOCKETS_IN};
use table_ios::ios_sound;
use table_irqs::irqs_sound;

// What is wrong with any card's mark or-ed together, with no early exit.
fn cards_marked(t: &[u8]) -> bool
    requires { length t.now ≡ table_size }
    ensures { Says result (CardsMarked t.now) }
{
    let mut flaws = 0;
    for mark in &t[CARDS_AT..CARDS_AT + MOST_SOCKETS] {
        flaws |= mark / MARKS;
    }
    flaws == 0
}

// Whether there is no card at a socket from the count on.
fn cards_end(t: &[u8]) -> bool
    requires { (length t.now ≡ table_size) × CountsSound t.now }
    ensures { Says result (CardsEnd t.now) }
{
    let sockets = table_read::byte(t, SOCKETS_IN);
    table_read::zero(t, CARDS_AT + sockets, CARDS_AT + MOST_SOCKETS)
}

// The marks of the cards, which are set at sockets below the count alone.
fn cards_sound(t: &[u8]) -> bool
    requires { (length t.now ≡ table_size) × CountsSound t.now }
    ensures { Says result (CardsSound t.now) }
{
    cards_marked(t) && cards_end(t)
}

// The cards and the grants of all sockets.
pub fn sockets_sound(t: &[u8]) -> bool
    requires { (length t.now ≡ table_size) × CountsSound t.now × ClientsSound t.now × RangesSound t.now }
    ensures { Says result (SocketsSound t.now) }
{
    cards_sound(t) && ios_sound(t) && irqs_sound(t)
}
