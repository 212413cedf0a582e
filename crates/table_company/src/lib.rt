// The I/O grants in rows, and the company that the grant at a seat keeps with those at the seats below it.
#![tactic(auto)]

ghost use Rattle.std.specs.Prelude.{◌≡◌, ◌+◌, ◌-◌, ◌^◌, ◌<◌, ◌≤◌, length};
ghost use Rattle.std.specs.Int.Bits.{bit_and};
ghost use Rattle.facts.specs.Table;
ghost use Rattle.facts.specs.Says.{Says};
ghost use Rattle.layout.specs.Layout.{table_size};
ghost use Rattle.layout.specs.Sound.{IoPlaceSound};
ghost use Rattle.table_read.specs.Sets.{Covers};
ghost use Rattle.seats.specs.Sound.{PlacesSound};
ghost use Rattle.table_company.specs.Answering.{BlocksWithin, AnswersInBlock, BlocksOf, CompaniesSound, SharedAt, AllShared};
ghost use Rattle.table_company.specs.Rows.{NumbersAre, over_of, RowsApart};

use facts::{Ports, Seat};
use layout::MOST_SEATS;

// Ports stand in blocks of eight, which are counted modulo `BLOCKS`, so that a set of blocks has a bit for each: the ports from 2F8H on stand in block 31, and
// so do those from 4F8H on. Grants with no block in common don't meet, and are not compared.
const BLOCK: usize = 8;

const BLOCKS: usize = 64;

const ALL_BLOCKS: u64 = 18446744073709551615;

// Ports that are equal modulo two to so many lines are in one block.
const BLOCK_LINES: usize = 9;

// The numbers of what a seat's I/O grant holds: the base; the last of the numbers that the lines tell apart; the port count; and the port count again, or 0
// where the grant is shared. A seat without a grant has 0 ports.
#[derive(Clone, Copy)]
pub struct Numbers {
    pub base: u16,
    pub ones: u16,
    pub count: u16,
    pub unshared: u16,
}

// The numbers of the I/O grant at the seat `s`.
fn numbers_of(t: &[u8], s: Seat) -> Numbers
    requires { (length t.now ≡ table_size) × IoPlaceSound t.now s.number }
    ensures { NumbersAre t.now s.number result }
{
    let Some(held) = seats::held(t, s) else {
        return Numbers {
            base: 0,
            ones: 0,
            count: 0,
            unshared: 0,
        };
    };
    let ones = io_ranges::power(held.ports.lines) - 1;
    let count = held.ports.count as u16;
    let unshared = if held.shared { 0 } else { count };
    Numbers {
        base: held.ports.base as u16,
        ones: ones as u16,
        count,
        unshared,
    }
}

// How far a grant's ports reach into the `count` ports of another from `base` on, by the lines that both decode; 0 where they don't meet. `last` is its last
// port, and `more` are those before it. 2F8H to 2FFH by 10 lines, against 6F8H to 6FFH by 16: 2FFH - 6F8H is FC07H, by 10 lines 7, and the seven ports before
// 2FFH reach back as far: 8 - (7 - 7) is 8, they meet. Against 700H to 707H: 2FFH - 700H is FBFFH, by 10 lines 3FFH, and seven ports don't: 8 - (3FFH - 7)
// is below 0, so the answer is 0.
fn over(base: u16, ones: u16, count: u16, last: u16, own: u16, more: u16) -> u16
    ensures { result ≡ over_of base ones count last own more }
{
    let past = last.wrapping_sub(base) & own & ones;
    count.saturating_sub(past.saturating_sub(more))
}

// The numbers of each seat, in rows, so that many seats are looked at side by side.
#[derive(Drop)]
pub struct Rows {
    bases: [u16; MOST_SEATS],
    ones: [u16; MOST_SEATS],
    counts: [u16; MOST_SEATS],
    unshared: [u16; MOST_SEATS],
}

impl Rows {
    ghost use Rattle.std.specs.Prelude.{◌≢◌, ◌==◌, cond, slice_index, ℕ};
    ghost use Rattle.table_company.specs.Rows.{numbers_at};

    // Rows without a port.
    fn none() -> Self {
        Rows {
            bases: [0; MOST_SEATS],
            ones: [0; MOST_SEATS],
            counts: [0; MOST_SEATS],
            unshared: [0; MOST_SEATS],
        }
    }

    // The numbers of the seat `s` are entered in the rows.
    fn enter(&mut self, s: Seat, new: Numbers)
        ensures here { numbers_at self.new s.number ≡ new }
        ensures others { (j : ℕ) → j ≢ s.number → numbers_at self.new j ≡ numbers_at self.old j }
    {
        let number = s.number;
        self.bases[number] = new.base;
        self.ones[number] = new.ones;
        self.counts[number] = new.count;
        self.unshared[number] = new.unshared;
    }

    // The row of the port counts that a grant may not reach: those of all grants, or, for one that is shared, those of the others that aren't.
    fn against(&self, unshared: u16) -> &[u16; MOST_SEATS]
        ensures { (u : ℕ) → slice_index result.now u ≡ cond (unshared == 0) (slice_index self.now.unshared u) (slice_index self.now.counts u) }
    {
        if unshared == 0 {
            return &self.unshared;
        }
        &self.counts
    }

    // Whether the grant at the seat `s` reaches no ports of a seat below it that it may not: what it reaches of each, or-ed together with no early exit.
    fn apart(&self, s: Seat) -> bool
        ensures { Says result (RowsApart self.now s.number) }
    {
        let number = s.number;
        let count = self.counts[number];
        if count == 0 {
            return true;
        }
        let more = count - 1;
        let last = self.bases[number].wrapping_add(more);
        let own = self.ones[number];
        let row = self.against(self.unshared[number]);
        let mut some: u16 = 0;
        for u in 0..number {
            some |= over(self.bases[u], self.ones[u], row[u], last, own, more);
        }
        some == 0
    }
}

// The first so many numbers, as a set.
fn first_of(n: usize) -> u64
    requires { n < 64 }
    ensures { result ≡ 2 ^ n - 1 }
{
    (1 << n) - 1
}

// The blocks of the `count` ports from `base` on, one after the other; all, where they go on past the last one to the first. Twelve ports from 2ECH on stand in the
// blocks 29 and 30, which are the first two, moved up by 29.
fn blocks_within(base: usize, count: usize) -> u64
    requires { (base < Table.all_ports) × (1 ≤ count) × (count ≤ Table.most_asked) }
    ensures { BlocksWithin result base count }
{
    let first = base / BLOCK % BLOCKS;
    let blocks = (base % BLOCK + count - 1) / BLOCK + 1;
    if BLOCKS < first + blocks {
        return ALL_BLOCKS;
    }
    first_of(blocks) << first
}

// The blocks in which a card with these ports answers.
fn blocks_of(ports: Ports) -> u64
    requires { (ports.base < Table.all_ports) × (1 ≤ ports.count) × (ports.count ≤ Table.most_asked) }
    ensures { Covers result (AnswersInBlock ports) }
{
    if ports.lines < BLOCK_LINES {
        return ALL_BLOCKS;
    }
    blocks_within(ports.base, ports.count)
}

// The blocks of the I/O grant at the seat `s`.
pub fn io_blocks(t: &[u8], s: Seat) -> u64
    requires { (length t.now ≡ table_size) × IoPlaceSound t.now s.number }
    ensures { BlocksOf t.now s.number result }
{
    let Some(held) = seats::held(t, s) else {
        return 0;
    };
    blocks_of(held.ports)
}

// Whether the seat `s` has no I/O grant but a shared one.
fn shared_at(t: &[u8], s: Seat) -> bool
    requires { length t.now ≡ table_size }
    ensures { Says result (SharedAt t.now s.number) }
{
    let Some(held) = seats::held(t, s) else {
        return true;
    };
    held.shared
}

// Whether the I/O grants at so many seats are all shared.
fn all_shared(t: &[u8], sockets: usize) -> bool
    requires { (length t.now ≡ table_size) × (sockets ≤ Table.most_seats) }
    ensures { Says result (AllShared t.now sockets) }
{
    for s in 0..sockets {
        if !shared_at(t, Seat::new(s)) {
            return false;
        }
    }
    true
}

// Whether the I/O grant at each seat of so many keeps company with those at the seats below it: all are shared, or each is put in the rows, and held against
// those before it.
pub fn companies_kept(t: &[u8], sockets: usize) -> bool
    requires { (length t.now ≡ table_size) × (sockets ≤ Table.most_seats) × PlacesSound (IoPlaceSound t.now) sockets }
    ensures { Says result (CompaniesSound t.now sockets) }
{
    if all_shared(t, sockets) {
        return true;
    }
    let mut rows = Rows::none();
    for s in 0..sockets {
        let seat = Seat::new(s);
        rows.enter(seat, numbers_of(t, seat));
        if !rows.apart(seat) {
            return false;
        }
    }
    true
}
