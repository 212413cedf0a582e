// The layout of the table's bytes: its limits, places and sizes by name. Definitions are in specs/, their laws in proofs/.
#![tactic(auto)]

// The limits.
pub const MOST_SOCKETS: usize = 8;

pub const MOST_SEATS: usize = 8;

pub const MOST_CLIENTS: usize = 16;

pub const MOST_ISSUED: usize = 65535;

pub const ALL_LEVELS: usize = 16;

pub const ALL_EVENTS: usize = 4096;

pub const ALL_EVENTS_U16: u16 = 4096;

pub const MOST_RANGES: usize = 32;

pub const ALL_PORTS: usize = 65536;

pub const MOST_LINES: usize = 16;

// A mark is 0 or 1, one of two numbers.
pub const MARKED: usize = 1;

pub const MARKS: u8 = 2;

// The first byte of every table: the letter C.
pub const LAYOUT_MARK: u8 = 67;

// The parts have places for so many clients and seats, of which fewer can be used; the handles have one more, which stays zero.
pub const CLIENT_ROOM: usize = 64;

pub const HANDLE_ROOM: usize = CLIENT_ROOM + 1;

pub const SEAT_ROOM: usize = 64;

// Where each part of the table begins, and the size of its records.
pub const TABLE_SIZE: usize = 8192;

pub const MARK_IN: usize = 0;

pub const SOCKETS_IN: usize = 1;

pub const CLIENTS_IN: usize = 2;

pub const RANGES_IN: usize = 3;

pub const ISSUED_IN: usize = 4;

pub const CARDS_AT: usize = 6;

pub const CARD_SIZE: usize = 1;

pub const LEVELS_AT: usize = CARDS_AT + MOST_SOCKETS * CARD_SIZE;

pub const LEVEL_SIZE: usize = 2;

pub const RANGES_AT: usize = LEVELS_AT + ALL_LEVELS * LEVEL_SIZE;

pub const RANGE_SIZE: usize = 7;

pub const HANDLES_AT: usize = RANGES_AT + MOST_RANGES * RANGE_SIZE;

pub const HANDLE_SIZE: usize = 2;

pub const ATTRIBUTES_AT: usize = HANDLES_AT + HANDLE_ROOM * HANDLE_SIZE;

pub const ATTRIBUTES_SIZE: usize = 1;

pub const EVENTS_AT: usize = ATTRIBUTES_AT + CLIENT_ROOM * ATTRIBUTES_SIZE;

pub const EVENTS_SIZE: usize = 2;

pub const IOS_AT: usize = EVENTS_AT + CLIENT_ROOM * EVENTS_SIZE;

pub const IO_SIZE: usize = 11;

pub const IRQS_AT: usize = IOS_AT + SEAT_ROOM * IO_SIZE;

pub const IRQ_SIZE: usize = 4;

pub const SPARE_AT: usize = IRQS_AT + SEAT_ROOM * IRQ_SIZE;

pub const SPARE_SIZE: usize = 112;

pub const MASKS_AT: usize = SPARE_AT + SPARE_SIZE;

pub const MASK_SIZE: usize = 2;

pub const MASKS_SIZE: usize = SEAT_ROOM * MASK_SIZE;

// Where a record's fields stand in it.
pub const LEVEL_RESERVED_AT: usize = 1;

pub const IO_BASE_AT: usize = 2;

pub const IO_COUNT_AT: usize = 4;

pub const IO_LINES_AT: usize = 5;

pub const IO_SHARED_AT: usize = 6;

pub const IO_SPARE_AT: usize = 7;

pub const IRQ_LEVEL_AT: usize = 2;

pub const IRQ_MANNER_AT: usize = 3;

pub const RANGE_COUNT_AT: usize = 2;

pub const RANGE_RESERVED_AT: usize = 6;
