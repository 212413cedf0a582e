// A seat's grants: entered or given back, and whether they are this client's. Whatever the bytes say, one record is written.
#![tactic(auto)]

ghost use Rattle.std.specs.Prelude.{◌≡◌, ◌<◌, length};
ghost use Rattle.facts.specs.declared.Code.TheVariants.{BadBase};
ghost use Rattle.facts.specs.Checks.{Checked};
ghost use Rattle.facts.specs.Io.{IoHeld};
ghost use Rattle.facts.specs.Table;
ghost use Rattle.layout.specs.Layout.{table_size};
ghost use Rattle.layout.specs.Reading.{facts_in};
ghost use Rattle.layout.specs.Changed.{io_entered, irq_entered};
ghost use Rattle.grants.specs.Grants.{LevelOf};

use facts::{Code, Handle, Manner, Ports, Seat};
use layout::{IO_BASE_AT, IO_COUNT_AT, IO_LINES_AT, IO_SHARED_AT, IRQ_LEVEL_AT, IRQ_MANNER_AT};

// The record of the seat's I/O grant: client, base, count, lines and shared mark; of none it is nobody's, and zeros.
pub fn enter_ports(t: &mut [u8], seat: Seat, h: Handle, ports: Ports, shared: usize)
    requires { (length t.old ≡ table_size) × (ports.base < 65536) × (ports.count < 256) × (ports.lines < 256) × (shared < 256) }
    ensures { t.new ≡ io_entered t.old seat.number h.0 ports.base ports.count ports.lines shared }
{
    let at = seats::io_place(seat);
    table_write::put_word(t, at, h.0 as usize);
    table_write::put_word(t, at + IO_BASE_AT, ports.base);
    t[at + IO_COUNT_AT] = ports.count as u8;
    t[at + IO_LINES_AT] = ports.lines as u8;
    t[at + IO_SHARED_AT] = shared as u8;
}

// "BAD_BASE unless this client holds that base and count on this socket."
pub fn ports_of(t: &[u8], seat: Seat, h: Handle, base: usize, count: usize) -> Result<(), Code>
    requires { length t.now ≡ table_size }
    ensures { Checked (IoHeld (facts_in t.now) h.0 seat.number base count) BadBase result }
{
    let Some(x) = seats::held(t, seat) else {
        return Err(Code::BadBase);
    };
    let same = (x.client, x.ports.base, x.ports.count) == (h, base, count);
    if same { Ok(()) } else { Err(Code::BadBase) }
}

// The record of the seat's IRQ grant: client, level and manner; of none it is nobody's, and zeros.
pub fn enter_level(t: &mut [u8], seat: Seat, h: Handle, level: usize, manner: usize)
    requires { (length t.old ≡ table_size) × (level < Table.all_levels) × (manner < 256) }
    ensures { t.new ≡ irq_entered t.old seat.number h.0 level manner }
{
    let at = seats::irq_place(seat);
    table_write::put_word(t, at, h.0 as usize);
    t[at + IRQ_LEVEL_AT] = level as u8;
    t[at + IRQ_MANNER_AT] = manner as u8;
}

// The manner in which this client holds this level at the seat: "BAD_IRQ unless this client holds that level".
pub fn level_of(t: &[u8], seat: Seat, h: Handle, level: usize) -> Result<Manner, Code>
    requires { length t.now ≡ table_size }
    ensures { LevelOf (facts_in t.now) h.0 seat.number level result }
{
    let Some(x) = seats::level_held(t, seat) else {
        return Err(Code::BadIrq);
    };
    let same = (x.client, x.level) == (h, level);
    if same {
        Ok(x.manner)
    } else {
        Err(Code::BadIrq)
    }
}
