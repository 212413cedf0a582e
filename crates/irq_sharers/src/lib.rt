// The number of sharers of an IRQ level, on a table that is the image of a well-formed set.
#![tactic(auto)]

ghost use Rattle.std.specs.Prelude.{◌≡◌, ◌≤◌, length};
ghost use Rattle.facts.specs.Table;
ghost use Rattle.facts.specs.Irq;
ghost use Rattle.facts.specs.Codes.{packed};
ghost use Rattle.layout.specs.Layout.{table_size};
ghost use Rattle.layout.specs.Reading.{sockets_in, facts_in};
ghost use Rattle.layout.specs.Sound.{Accepted};
ghost use Rattle.irq_sharers.specs.Sharing.{CountsSharers, count_of};

use facts::{Code, Seat};
use layout::SOCKETS_IN;

// One for a grant of the level at the seat, else none.
fn sharer(t: &[u8], level: usize, s: Seat) -> usize
    requires { length t.now ≡ table_size }
    ensures { (result ≡ Irq.sharer level ((facts_in t.now).irq s.number)) × (result ≤ 1) }
{
    let Some(held) = seats::level_held(t, s) else {
        return 0;
    };
    usize::from(held.level == level)
}

// The number of grants of the level at the seats below the count of sockets.
fn count(t: &[u8], level: usize) -> usize
    requires { (length t.now ≡ table_size) × (sockets_in t.now ≤ Table.most_sockets) }
    ensures { (result ≡ Irq.sharers_below (facts_in t.now) level (sockets_in t.now)) × (result ≤ Table.most_sockets) }
{
    let sockets = table_read::byte(t, SOCKETS_IN);
    let mut n = 0;
    for s in 0..sockets {
        n += sharer(t, level, Seat::new(s));
    }
    n
}

// What the question for sharers answers: their number, or the code of a refusal.
pub fn of_level(t: &[u8], level: u32) -> Result<u16, Code>
    requires { Accepted t.now }
    ensures { CountsSharers level t.now result }
{
    let l = irq_levels::below_levels(level)?;
    Ok(count(t, l) as u16)
}

// code + 65536 * count.
pub fn pack(count: Result<u16, Code>) -> u32
    ensures { result ≡ packed (count_of count).code (count_of count).count }
{
    match count {
        Ok(n) => 65536 * u32::from(n),
        Err(code) => u32::from(code),
    }
}
