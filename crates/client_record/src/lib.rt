// A client: where it is listed, its masks, which attributes are allowed.
#![tactic(auto)]

ghost use Rattle.std.specs.Prelude.{◌≡◌, ◌<◌, ◌≤◌, length};
ghost use Rattle.facts.specs.Table;
ghost use Rattle.facts.specs.Says.{Says};
ghost use Rattle.facts.specs.WellFormed.{AttributesAllowed};
ghost use Rattle.layout.specs.Layout.{table_size};
ghost use Rattle.layout.specs.Reading.{clients_in};
ghost use Rattle.layout.specs.Sound.{LiveIn, MaskUsed};
ghost use Rattle.client_record.specs.Finding.{Finds, ByNumber};

use facts::{Handle, Seat};
use layout::{CLIENTS_IN, HANDLE_SIZE, HANDLES_AT, MASK_SIZE, MASKS_AT, MASKS_SIZE};

// A client's attributes are five bits, of which the lowest three say its type.
const ALL_ATTRIBUTES: usize = 32;

const ALL_KINDS: usize = 8;

// "Attribute bits or client types that 5.37 doesn't allow": one of bits 0 to 2, any of bits 3 and 4, no other.
pub fn attributes_allowed(a: usize) -> bool
    ensures { Says result (AttributesAllowed a) }
{
    if ALL_ATTRIBUTES <= a {
        return false;
    }
    match a % ALL_KINDS {
        1 | 2 | 4 => true,
        _ => false,
    }
}

// The place in which the client `h` is listed, whichever it is.
fn search(t: &[u8], h: Handle) -> Option<usize>
    requires { (length t.now ≡ table_size) × (clients_in t.now ≤ Table.most_clients) }
    ensures { Finds t.now h.0 result }
{
    let clients = table_read::byte(t, CLIENTS_IN);
    for i in 0..clients {
        if table_read::handle(t, HANDLES_AT + i * HANDLE_SIZE) == h {
            return Some(i);
        }
    }
    None
}

// Whether the client `h` stands where the clients with the handles 1, 2, 3 and on stand as long as none of them is taken out.
fn stands_by_number(t: &[u8], h: Handle) -> bool
    requires { (length t.now ≡ table_size) × (clients_in t.now ≤ Table.most_clients) }
    ensures { Says result (ByNumber t.now h.0) }
{
    let number = usize::from(h.0);
    if number == 0 {
        return false;
    }
    if table_read::byte(t, CLIENTS_IN) < number {
        return false;
    }
    table_read::word(t, HANDLES_AT + (number - 1) * HANDLE_SIZE) == number
}

// The place of the client `h`, looked for first where its number points: client 3 in the third place. Where client 1 has left, client 3 stands in the second, and is
// searched for.
pub fn client_at(t: &[u8], h: Handle) -> Option<usize>
    requires { (length t.now ≡ table_size) × (clients_in t.now ≤ Table.most_clients) }
    ensures { Finds t.now h.0 result }
{
    if stands_by_number(t, h) {
        return Some(usize::from(h.0) - 1);
    }
    search(t, h)
}

// Whether the handle is that of a client listed: it is compared with all of them, with no early exit, so that many are looked at side by side. Client 5
// among the clients 3, 5 and 9: the comparisons are 0, 1 and 0, or-ed together 1, which is yes. Client 4 among them: 0, 0 and 0, which is no.
fn listed(t: &[u8], h: Handle) -> bool
    requires { (length t.now ≡ table_size) × (clients_in t.now ≤ Table.most_clients) }
    ensures { Says result (LiveIn t.now h.0) }
{
    let all = table_read::byte(t, CLIENTS_IN);
    let wanted = h.0;
    let mut some: u16 = 0;
    for i in 0..all {
        some |= u16::from(table_read::word_u16(t, HANDLES_AT + i * HANDLE_SIZE) == wanted);
    }
    some != 0
}

// Whether the client `h` is live: it is looked for first where its number points, as in `client_at`.
pub fn live(t: &[u8], h: Handle) -> bool
    requires { (length t.now ≡ table_size) × (clients_in t.now ≤ Table.most_clients) }
    ensures { Says result (LiveIn t.now h.0) }
{
    if stands_by_number(t, h) {
        return true;
    }
    listed(t, h)
}

// Whether the client listed in the place `i` holds a mask at the seat.
pub fn mask_on(t: &[u8], i: usize, s: Seat) -> bool
    requires { (length t.now ≡ table_size) × (i < Table.most_clients) }
    ensures { Says result (MaskUsed t.now i s.number) }
{
    let number = s.number;
    let at = MASKS_AT + i * MASKS_SIZE + number * MASK_SIZE;
    table_read::word(t, at) != 0
}
