// The clients' numbers: handles, attributes and event masks, each kind side by side.
#![tactic(auto)]

ghost use Rattle.std.specs.Prelude.{◌≡◌, ◌⊎◌, ◌<◌, ◌≤◌, eqb, length};
ghost use Rattle.facts.specs.Table;
ghost use Rattle.facts.specs.Says.{Says};
ghost use Rattle.facts.specs.WellFormed.{AttributesAllowed};
ghost use Rattle.layout.specs.Layout.{table_size};
ghost use Rattle.layout.specs.Reading.{clients_in};
ghost use Rattle.table_clients.specs.Clients.{OneType, PlaceSound, PlaceSoundIn, PlacesSound, Counted, PlacesEnd, ClientsListed};

use layout::{
    ALL_EVENTS_U16, ATTRIBUTES_AT, ATTRIBUTES_SIZE, CLIENTS_IN, EVENTS_AT, EVENTS_SIZE,
    HANDLE_SIZE, HANDLES_AT, ISSUED_IN, MOST_CLIENTS,
};

// A client's attributes are five bits, of which the lowest three say its type.
const ALL_ATTRIBUTES: u16 = 32;

const ALL_KINDS: u16 = 8;

const EIGHT: usize = 8;

// What is wrong with a client's type, 0 if nothing is: it is one bit. Less by one, a number that is one bit has no bit with itself in common: 4 and 3
// have none, 6 and 5 have the bit 4.
fn type_flaw(kind: u16) -> u16
    requires { kind < 8 }
    ensures { Says (eqb result 0) (OneType kind) }
{
    if kind == 0 {
        return 1;
    }
    kind & (kind - 1)
}

// What is wrong with a client's attributes, 0 if nothing is.
fn attributes_flaw(a: u16) -> u16
    ensures { Says (eqb result 0) (AttributesAllowed a) }
{
    a / ALL_ATTRIBUTES | type_flaw(a % ALL_KINDS)
}

// What is wrong with a handle and the one after it, 0 if nothing is: the next one is over it, or there is none. After 3 comes 9, and 3 is not over 9 - 1;
// after 9 comes 3, and 9 is 7 over 3 - 1; after 9 comes none.
fn rise_flaw(h: u16, next: u16) -> u16
    ensures { Says (eqb result 0) ((next ≡ 0) ⊎ (h < next)) }
{
    if next == 0 {
        return 0;
    }
    h.saturating_sub(next - 1)
}

// What is wrong with the numbers in one place, 0 if nothing is: of no client, whose handle is 0, all are 0, and there is no next one.
fn client_flaw(h: u16, next: u16, events: u16, attributes: u16) -> u16
    ensures { Says (eqb result 0) (PlaceSound h next events attributes) }
{
    if h == 0 {
        return next | events | attributes;
    }
    rise_flaw(h, next) | events / ALL_EVENTS_U16 | attributes_flaw(attributes)
}

// The same of the place `i`.
fn place_flaw(t: &[u8], i: usize) -> u16
    requires { (length t.now ≡ table_size) × (i < Table.most_clients) }
    ensures { Says (eqb result 0) (PlaceSoundIn t.now i) }
{
    let h = table_read::word_u16(t, HANDLES_AT + i * HANDLE_SIZE);
    let next = table_read::word_u16(t, HANDLES_AT + (i + 1) * HANDLE_SIZE);
    let events = table_read::word_u16(t, EVENTS_AT + i * EVENTS_SIZE);
    let attributes = u16::from(t[ATTRIBUTES_AT + i * ATTRIBUTES_SIZE]);
    client_flaw(h, next, events, attributes)
}

// What is wrong in any place that a client can have, or-ed together with no early exit, so that many are looked at side by side. Of the handles 3, 9, 0, 0
// and on, nothing is wrong with 3 before 9, with 9 before 0, nor with 0 before 0; of 3, 0, 9 the 0 before 9 is wrong.
fn places_sound(t: &[u8]) -> bool
    requires { length t.now ≡ table_size }
    ensures { Says result (PlacesSound t.now) }
{
    let mut flaws = 0;
    for i in 0..MOST_CLIENTS {
        flaws |= place_flaw(t, i);
    }
    flaws == 0
}

// Whether there are as many clients as the head says: the last of them is there, and none after it. "live handles .. aren't over the number issued": no handle
// is where the last isn't.
fn counted(t: &[u8]) -> bool
    requires { (length t.now ≡ table_size) × (clients_in t.now ≤ Table.most_clients) }
    ensures { Says result (Counted t.now) }
{
    let clients = table_read::byte(t, CLIENTS_IN);
    if table_read::word(t, HANDLES_AT + clients * HANDLE_SIZE) != 0 {
        return false;
    }
    if clients == 0 {
        return true;
    }
    let last = table_read::word(t, HANDLES_AT + (clients - 1) * HANDLE_SIZE);
    last != 0 && last <= table_read::word(t, ISSUED_IN)
}

// Whether the places that no client can have are zero: handles from 302 up to 400, which are twelve eights and one more that overlaps the last of them,
// attributes from 416 up to 464, and events from 496 up to 592.
fn places_end(t: &[u8]) -> bool
    requires { length t.now ≡ table_size }
    ensures { Says result (PlacesEnd t.now) }
{
    table_read::eights_zero(t, ATTRIBUTES_AT - EIGHT, 1)
        && table_read::eights_zero(t, HANDLES_AT + MOST_CLIENTS * HANDLE_SIZE, 12)
        && table_read::eights_zero(t, ATTRIBUTES_AT + MOST_CLIENTS * ATTRIBUTES_SIZE, 6)
        && table_read::eights_zero(t, EVENTS_AT + MOST_CLIENTS * EVENTS_SIZE, 12)
}

// "live handles differ, aren't 0 and aren't over the number issued": the clients' numbers, and what no client uses of their places.
pub fn clients_sound(t: &[u8]) -> bool
    requires { (length t.now ≡ table_size) × (clients_in t.now ≤ Table.most_clients) }
    ensures { Says result (ClientsListed t.now) }
{
    places_sound(t) && counted(t) && places_end(t)
}
