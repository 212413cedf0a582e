// The entries: numbers and lent bytes, as they come from C (`keeper_c` exports them). Any bytes, service number, handle and packet get an answer.
#![tactic(auto)]

ghost use Rattle.std.specs.Prelude.{◌≡◌, true, false};
ghost use Rattle.facts.specs.Checks.{code_in};
ghost use Rattle.facts.specs.Codes.{number_of, packed};
ghost use Rattle.service_answers.specs.Answers.{handle_of};
ghost use Rattle.promises.specs.Entries.{CallAnswers, CardAnswers, SharersAnswers, FreshAnswers, BootAnswers};

use facts::{Code, Handle, Socket};
use layout::TABLE_SIZE;
use managed_boot::Stopped;

// The services by their numbers (chapter 5 of the volume); every other number is refused.
const DEREGISTER_CLIENT: u16 = 0x02;

const REGISTER_CLIENT: u16 = 0x10;

const RELEASE_IO: u16 = 0x1B;

const RELEASE_IRQ: u16 = 0x1C;

const REQUEST_IO: u16 = 0x1F;

const REQUEST_IRQ: u16 = 0x20;

const REQUEST_SOCKET_MASK: u16 = 0x22;

const RELEASE_SOCKET_MASK: u16 = 0x2F;

const ADJUST_RESOURCE_INFO: u16 = 0x35;

// What an entry answers of a table that it can't take: of another length, or, but for cs_fresh, whose bytes no well-formed set has.
const UNFORMED: Code = Code::GeneralFailure;

// The number of a code, where a call answers nothing more: SUCCESS, or the code of the refusal.
fn number(ended: Result<(), Code>) -> u32
    ensures { result ≡ number_of (code_in ended) }
{
    match ended {
        Ok(()) => u32::from(Code::Success),
        Err(code) => u32::from(code),
    }
}

fn fresh(table: &mut [u8], sockets: u32) -> Result<(), Code>
    ensures { FreshAnswers sockets table.old table.new (number_of (code_in result)) }
{
    let n = socket_cards::socket_count(sockets)?;
    if table.len() != TABLE_SIZE {
        return Err(UNFORMED);
    }
    table_write::make_fresh(table, n);
    Ok(())
}

pub fn cs_fresh(table: &mut [u8], sockets: u32) -> u32
    ensures { FreshAnswers sockets table.old table.new result }
{
    number(fresh(table, sockets))
}

// What a call of a service answers, on any bytes.
fn serve(table: &mut [u8], service: u16, h: Handle, packet: &mut [u8]) -> Result<Handle, Code>
    ensures { CallAnswers service h.0 table.old table.new packet.old packet.new (packed (code_in result) (handle_of result)) }
{
    let Ok(()) = table_test::load(table) else {
        return Err(UNFORMED);
    };
    match service {
        DEREGISTER_CLIENT => client_services::deregister(table, h, packet),
        REGISTER_CLIENT => client_services::register(table, packet),
        RELEASE_IO => io_services::release(table, h, packet),
        RELEASE_IRQ => irq_services::release(table, h, packet),
        REQUEST_IO => io_services::request(table, h, packet),
        REQUEST_IRQ => irq_services::request(table, h, packet),
        REQUEST_SOCKET_MASK => socket_masks::request(table, h, packet),
        RELEASE_SOCKET_MASK => socket_masks::release(table, h, packet),
        ADJUST_RESOURCE_INFO => managed_adjust::adjust(table, h, packet),
        0x0000..=0xFFFF => Err(Code::UnsupportedService),
    }
}

pub fn cs_call(table: &mut [u8], service: u16, handle: u16, packet: &mut [u8]) -> u32
    ensures { CallAnswers service handle table.old table.new packet.old packet.new result }
{
    service_answers::pack(serve(table, service, Handle(handle), packet))
}

fn card(table: &mut [u8], socket: Socket, present: bool) -> Result<(), Code>
    ensures { CardAnswers present socket.0 table.old table.new (number_of (code_in result)) }
{
    let Ok(()) = table_test::load(table) else {
        return Err(UNFORMED);
    };
    socket_cards::card(table, socket, present)
}

pub fn cs_card_in(table: &mut [u8], socket: u32) -> u32
    ensures { CardAnswers true socket table.old table.new result }
{
    number(card(table, Socket(socket as usize), true))
}

pub fn cs_card_out(table: &mut [u8], socket: u32) -> u32
    ensures { CardAnswers false socket table.old table.new result }
{
    number(card(table, Socket(socket as usize), false))
}

pub fn cs_sharers(table: &[u8], level: u32) -> u32
    ensures { SharersAnswers level table.now result }
{
    let Ok(()) = table_test::load(table) else {
        return u32::from(UNFORMED);
    };
    irq_sharers::pack(irq_sharers::of_level(table, level))
}

pub fn cs_boot(table: &mut [u8], records: &[u8]) -> u64
    ensures { BootAnswers records.now table.old table.new result }
{
    let Ok(()) = table_test::load(table) else {
        return managed_boot::pack(Err(Stopped {
            place: 0,
            code: UNFORMED,
        }));
    };
    managed_boot::pack(managed_boot::boot(table, records))
}
