// The head, and what lies past the last range and the last seat.
ghost use Rattle.std.specs.Prelude.{◌≡◌, ◌≤◌, length};
ghost use Rattle.facts.specs.Table;
ghost use Rattle.facts.specs.Says.{Says};
ghost use Rattle.layout.specs.Layout.{table_size, handles_at};
ghost use Rattle.layout.specs.Reading.{ranges_in, range_place};
ghost use Rattle.layout.specs.Sound.{CountsSound, Zero};
ghost use Rattle.table_lists.specs.Parts.{SeatsEnd};

use layout::{
    CLIENTS_IN, HANDLES_AT, IO_SIZE, IOS_AT, IRQ_SIZE, IRQS_AT, LAYOUT_MARK, MARK_IN, MASKS_AT,
    MOST_CLIENTS, MOST_RANGES, MOST_SEATS, MOST_SOCKETS, RANGE_SIZE, RANGES_AT, RANGES_IN,
    SOCKETS_IN,
};

// Each of the stretches that four_zero looks at: more than half of either part.
const STRETCH: usize = 320;

// The layout's mark, and the numbers of sockets, clients and ranges, within their limits.
pub fn counts_sound(t: &[u8]) -> bool
    requires { length t.now ≡ table_size }
    ensures { Says result (CountsSound t.now) }
{
    let sockets = table_read::byte(t, SOCKETS_IN);
    t[MARK_IN] == LAYOUT_MARK
        && sockets != 0
        && sockets <= MOST_SOCKETS
        && table_read::byte(t, CLIENTS_IN) <= MOST_CLIENTS
        && table_read::byte(t, RANGES_IN) <= MOST_RANGES
}

// Whether what no range uses of their places is zero.
pub fn ranges_end(t: &[u8]) -> bool
    requires { (length t.now ≡ table_size) × (ranges_in t.now ≤ Table.most_ranges) }
    ensures { Says result (Zero t.now (range_place (ranges_in t.now)) handles_at) }
{
    let end = RANGES_AT + table_read::byte(t, RANGES_IN) * RANGE_SIZE;
    table_read::spread_zero(t, end, HANDLES_AT)
}

// Whether the seats that no socket has, and the spare bytes after them, are zero: two stretches, each as two of 320 bytes that overlap. The I/O grants of the
// seats from 8 on lie from 680 up to 1,296: 320 bytes from 680 and 320 bytes from 976 on.
pub fn seats_end(t: &[u8]) -> bool
    requires { length t.now ≡ table_size }
    ensures { Says result (SeatsEnd t.now) }
{
    let ios_end = IOS_AT + MOST_SEATS * IO_SIZE;
    let irqs_end = IRQS_AT + MOST_SEATS * IRQ_SIZE;
    table_read::four_zero(
        t,
        ios_end,
        IRQS_AT - STRETCH,
        irqs_end,
        MASKS_AT - STRETCH,
        STRETCH,
    )
}
