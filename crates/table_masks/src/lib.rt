// The clients' masks: a row of words for each client, one word for each seat.
#![tactic(auto)]

ghost use Rattle.std.specs.Prelude.{◌≡◌, ◌+◌, ◌<◌, ◌≤◌, eqb, length};
ghost use Rattle.facts.specs.Table;
ghost use Rattle.facts.specs.Says.{Says};
ghost use Rattle.layout.specs.Layout.{table_size, masks_size};
ghost use Rattle.layout.specs.Reading.{clients_in, masks_place};
ghost use Rattle.layout.specs.Sound.{CountsSound, MasksSound, Zero};
ghost use Rattle.table_masks.specs.Masks.{RowUnder, RowsUnder};

use layout::{
    ALL_EVENTS_U16, CLIENTS_IN, MASK_SIZE, MASKS_AT, MASKS_SIZE, MOST_SOCKETS, SEAT_ROOM,
    SOCKETS_IN, TABLE_SIZE,
};

// The most that a seat's word can be: 4,096 where its socket is below the count, else 0. Eight times 4,096 and then zeros serve every count: with three
// sockets the row of these limits begins at the sixth step, so that three seats have 4,096.
const STEPS: usize = MOST_SOCKETS + SEAT_ROOM;

// How far any word of a row is over its limit, or-ed together with no early exit, so that many are looked at side by side. The word 1 (a mask with no events)
// is 0 over the limit 4,096, and 1 over the limit 0; the word 4,097 is 1 over 4,096.
fn row_flaws(t: &[u8], at: usize, steps: &[u16; STEPS], from: usize) -> u16
    requires { (at + masks_size ≤ length t.now) × (from ≤ Table.most_sockets) }
    ensures { Says (eqb result 0) (RowUnder t.now at steps.now from) }
{
    let mut flaws = 0;
    for k in 0..SEAT_ROOM {
        let word = table_read::word_u16(t, at + k * MASK_SIZE);
        flaws |= word.saturating_sub(steps[from + k]);
    }
    flaws
}

// How many clients have a word over its limit: all are counted, with no early exit, so that the limits are read once for all rows.
fn rows_over(t: &[u8], steps: &[u16; STEPS], from: usize) -> usize
    requires { (length t.now ≡ table_size) × (clients_in t.now ≤ Table.most_clients) × (from ≤ Table.most_sockets) }
    ensures { Says (eqb result 0) (RowsUnder t.now steps.now from) }
{
    let mut over = 0;
    for i in 0..table_read::byte(t, CLIENTS_IN) {
        over += usize::from(row_flaws(t, MASKS_AT + i * MASKS_SIZE, steps, from) != 0);
    }
    over
}

// "a mask has .. a socket below the count": each client's mask at each seat is none, or one at a socket below the count.
pub fn masks_sound(t: &[u8]) -> bool
    requires { (length t.now ≡ table_size) × CountsSound t.now }
    ensures { Says result (MasksSound t.now) }
{
    let mut steps = [0; STEPS];
    steps[..MOST_SOCKETS].fill(ALL_EVENTS_U16);
    let sockets = table_read::byte(t, SOCKETS_IN);
    rows_over(t, &steps, MOST_SOCKETS - sockets) == 0
}

// Whether all bytes past the last client's masks are zero: so many that four quarters of them are whole.
pub fn masks_end(t: &[u8]) -> bool
    requires { (length t.now ≡ table_size) × (clients_in t.now ≤ Table.most_clients) }
    ensures { Says result (Zero t.now (masks_place (clients_in t.now)) table_size) }
{
    let from = MASKS_AT + table_read::byte(t, CLIENTS_IN) * MASKS_SIZE;
    table_read::quarters_zero(t, from, (TABLE_SIZE - from) / 4)
}
