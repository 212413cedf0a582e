// The words of document 01 that code and definitions share: handles, sockets, ports, codes, manners, a packet's width, what it
// asks for and a boot record. What a table says, which sets of facts are well formed and what each call does with them is in specs/.
#![tactic(auto)]

ghost use Rattle.std.specs.Prelude.{◌≡◌, ◌<◌, Some};
ghost use Rattle.facts.specs.Codes.{number_of, name_of};

use std::error::Error;
use std::fmt;

// A client's handle: 16 bits, as the binding has it. Of two clients the one with the lower handle registered first.
#[derive(Clone, Copy, Debug, PartialEq, Eq, PartialOrd, Ord)]
pub struct Handle(pub u16);

// A socket's number: one byte of a packet, or a number that the host gives.
#[derive(Clone, Copy, Debug, PartialEq, Eq)]
pub struct Socket(pub usize);

// A seat: where a grant or a mask stands, one of a table's. Today each socket has one, which has its number; with functions, each function of a socket will
// have one.
#[derive(Clone, Copy, Debug, PartialEq, Eq)]
pub struct Seat {
    pub number: usize,
    pub ghost in_table: { number < 8 },
}

impl Seat {
    pub fn new(number: usize) -> Seat
        requires { number < 8 }
        ensures { result.number ≡ number }
    {
        Seat { number }
    }
}

// Ports as a card with so many decoded lines answers to them.
#[derive(Clone, Copy, Debug, PartialEq, Eq)]
pub struct Ports {
    pub base: usize,
    pub count: usize,
    pub lines: usize,
}

// The fifteen codes: success, and what a call is refused with.
#[derive(Clone, Copy, Debug, PartialEq, Eq)]
pub enum Code {
    Success,
    BadAttribute,
    BadBase,
    BadIrq,
    BadSize,
    BadSocket,
    NoCard,
    UnsupportedService,
    GeneralFailure,
    BadArgLength,
    BadArgs,
    InUse,
    NoMoreItems,
    OutOfResource,
    BadHandle,
}

// The four manners in which an IRQ level is held.
#[derive(Clone, Copy, Debug, PartialEq, Eq)]
pub enum Manner {
    Exclusive,
    TimeMultiplexed,
    DynamicLevel,
    DynamicPulse,
}

// The two widths of AdjustResourceInfo's packet for I/O.
#[derive(Clone, Copy, Debug, PartialEq, Eq)]
pub enum Width {
    Short,
    Wide,
}

// A record of the boot list: its resource type and attributes, its base or level, its port count.
#[derive(Clone, Copy, Debug, PartialEq, Eq)]
pub struct Record {
    pub resource: u8,
    pub attributes: u8,
    pub base: u32,
    pub count: u32,
}

// The resource types (5.3) that are managed.
pub const IO_RESOURCE: u8 = 1;

pub const IRQ_RESOURCE: u8 = 2;

// What RequestIO's packet asks for: so many ports at a base (0: at any), decoded by so many lines; whether to share them, and only as the first to.
#[derive(Clone, Copy, Debug, PartialEq, Eq)]
pub struct IoAsked {
    pub base: usize,
    pub count: usize,
    pub lines: usize,
    pub shared: bool,
    pub first: bool,
}

// What RequestIRQ's packet asks for: one of the levels that it names, a bit for each, in a manner; whether only as the first to share it.
#[derive(Clone, Copy, Debug, PartialEq, Eq)]
pub struct IrqAsked {
    pub manner: Manner,
    pub named: usize,
    pub first: bool,
}

// What an Add or a Remove of a range names.
#[derive(Clone, Copy, Debug, PartialEq, Eq)]
pub struct RangeAsked {
    pub base: u32,
    pub count: u32,
    pub attributes: u8,
    pub lines: u8,
}

// A code's number.
impl From<Code> for u32 {
    ghost from_gives = { λ c n. n ≡ number_of c };

    fn from(code: Code) -> u32
        ensures { result ≡ number_of code }
    {
        match code {
            Code::Success => 0x00,
            Code::BadAttribute => 0x02,
            Code::BadBase => 0x03,
            Code::BadIrq => 0x06,
            Code::BadSize => 0x0A,
            Code::BadSocket => 0x0B,
            Code::NoCard => 0x14,
            Code::UnsupportedService => 0x15,
            Code::GeneralFailure => 0x19,
            Code::BadArgLength => 0x1B,
            Code::BadArgs => 0x1C,
            Code::InUse => 0x1E,
            Code::NoMoreItems => 0x1F,
            Code::OutOfResource => 0x20,
            Code::BadHandle => 0x21,
        }
    }
}

// A code's name, as document 01's table has it.
impl fmt::Display for Code {
    ghost output = { λ c. Some (name_of c) };

    fn fmt<W: fmt::Write>(&self, f: &mut fmt::Formatter<W>) -> fmt::Result {
        f.write_str(match self {
            Code::Success => "SUCCESS",
            Code::BadAttribute => "BAD_ATTRIBUTE",
            Code::BadBase => "BAD_BASE",
            Code::BadIrq => "BAD_IRQ",
            Code::BadSize => "BAD_SIZE",
            Code::BadSocket => "BAD_SOCKET",
            Code::NoCard => "NO_CARD",
            Code::UnsupportedService => "UNSUPPORTED_SERVICE",
            Code::GeneralFailure => "GENERAL_FAILURE",
            Code::BadArgLength => "BAD_ARG_LENGTH",
            Code::BadArgs => "BAD_ARGS",
            Code::InUse => "IN_USE",
            Code::NoMoreItems => "NO_MORE_ITEMS",
            Code::OutOfResource => "OUT_OF_RESOURCE",
            Code::BadHandle => "BAD_HANDLE",
        })
    }
}

impl Error for Code {}
