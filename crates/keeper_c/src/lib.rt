// The C boundary: the entries of `keeper` under their C names, each with its promise.
#![tactic(auto)]

ghost use Rattle.std.specs.Prelude.{true, false};
ghost use Rattle.promises.specs.Entries.{CallAnswers, CardAnswers, SharersAnswers, FreshAnswers, BootAnswers};

#[unsafe(no_mangle)]
pub extern "C" fn cs_fresh(table: &mut [u8], sockets: u32) -> u32
    ensures { FreshAnswers sockets table.old table.new result }
{
    keeper::cs_fresh(table, sockets)
}

#[unsafe(no_mangle)]
pub extern "C" fn cs_call(table: &mut [u8], service: u16, handle: u16, packet: &mut [u8]) -> u32
    ensures { CallAnswers service handle table.old table.new packet.old packet.new result }
{
    keeper::cs_call(table, service, handle, packet)
}

#[unsafe(no_mangle)]
pub extern "C" fn cs_card_in(table: &mut [u8], socket: u32) -> u32
    ensures { CardAnswers true socket table.old table.new result }
{
    keeper::cs_card_in(table, socket)
}

#[unsafe(no_mangle)]
pub extern "C" fn cs_card_out(table: &mut [u8], socket: u32) -> u32
    ensures { CardAnswers false socket table.old table.new result }
{
    keeper::cs_card_out(table, socket)
}

#[unsafe(no_mangle)]
pub extern "C" fn cs_sharers(table: &[u8], level: u32) -> u32
    ensures { SharersAnswers level table.now result }
{
    keeper::cs_sharers(table, level)
}

#[unsafe(no_mangle)]
pub extern "C" fn cs_boot(table: &mut [u8], records: &[u8]) -> u64
    ensures { BootAnswers records.now table.old table.new result }
{
    keeper::cs_boot(table, records)
}
