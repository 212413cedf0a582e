// A caller of the entries, as the console's firmware is one: what its calls bring about is a run.
#![tactic(auto)]

ghost use Rattle.history.specs.Events.{FreshCame, CallCame, CardInCame, CardOutCame, BootCame, SharersCame};
ghost use Rattle.caller.specs.Visits.{planned, EndingIs};

// Each entry: what it answers and leaves is an event of a run.
fn fresh(table: &mut [u8], sockets: u32) -> u32
    ensures { FreshCame sockets table.old table.new result }
{
    keeper::cs_fresh(table, sockets)
}

fn boot(table: &mut [u8], records: &[u8]) -> u64
    ensures { BootCame records.now table.old table.new result }
{
    keeper::cs_boot(table, records)
}

fn card_in(table: &mut [u8], socket: u32) -> u32
    ensures { CardInCame socket table.old table.new result }
{
    keeper::cs_card_in(table, socket)
}

fn call(table: &mut [u8], service: u16, handle: u16, packet: &mut [u8]) -> u32
    ensures { CallCame service handle packet.old packet.new table.old table.new result }
{
    keeper::cs_call(table, service, handle, packet)
}

fn sharers(table: &[u8], level: u32) -> u32
    ensures { SharersCame level table.now result }
{
    keeper::cs_sharers(table, level)
}

fn card_out(table: &mut [u8], socket: u32) -> u32
    ensures { CardOutCame socket table.old table.new result }
{
    keeper::cs_card_out(table, socket)
}

// The code of a cs_fresh that made a table.
const SUCCESS: u32 = 0;

// What the entries answered.
#[derive(Clone, Copy, Debug, PartialEq, Eq)]
pub struct VisitAnswers {
    pub booted: u64,
    pub inserted: u32,
    pub called: u32,
    pub shared: u32,
    pub removed: u32,
}

// A visit at the console: a table is made, and each of the other entries is called once. All answers; or the code of a cs_fresh that was refused.
pub fn visit(
    table: &mut [u8],
    sockets: u32,
    records: &[u8],
    socket: u32,
    service: u16,
    handle: u16,
    packet: &mut [u8],
    level: u32,
) -> Result<VisitAnswers, u32>
    ensures { EndingIs (planned sockets records.now socket service handle packet.old level) table.old table.new packet.new result }
{
    let made = fresh(table, sockets);
    if made != SUCCESS {
        return Err(made);
    }
    let booted = boot(table, records);
    let inserted = card_in(table, socket);
    let called = call(table, service, handle, packet);
    let shared = sharers(table, level);
    let removed = card_out(table, socket);
    Ok(VisitAnswers {
        booted,
        inserted,
        called,
        shared,
        removed,
    })
}
