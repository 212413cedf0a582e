// Bars of bases: each stands for what one live grant bars, or one gap between the managed ranges.
ghost use Rattle.std.specs.Prelude.{ℕ, ◌+◌, ◌<◌, ◌≤◌, slice_index};
ghost use Rattle.io_obstacles.specs.Powers.{around, Power};
ghost use Rattle.io_obstacles.specs.Unique.{Powers-prop};

use layout::{MOST_RANGES, MOST_SEATS};

// A bar: so many bases from a start on, and again after each period. The period is a power of two; less one, its bits are all ones.
#[derive(Clone, Copy)]
pub struct Bar {
    pub start: u16,
    pub ones: u16,
    pub width: u16,
}

impl Bar {
    ghost use Rattle.io_obstacles.specs.Powers.{Leaps};
    ghost use Rattle.io_obstacles.specs.Rows.{LiesShort};

    // How far the end of the bar lies ahead of a base in it; 0 where the base isn't. A bar whose period is longer than the limit and one bars nothing. A
    // base before the start wraps around at all ports, which every period divides: for 10 bases from 2FDH on, again after each 400H, and the base 2,
    // 2H - 2FDH wraps to FD05H, whose low ten bits are 105H, and 10 bases end before that.
    fn ahead(self, limit: u16, base: u16) -> u16
        requires { Power (self.ones + 1) }
        ensures { Leaps (LiesShort self limit) base result }
    {
        let behind = base.wrapping_sub(self.start) & self.ones;
        if limit < self.ones {
            return 0;
        }
        if self.width <= behind {
            return 0;
        }
        self.width - behind
    }
}

// As many bars as there are places: where each starts, its period less one, and how many bases it has. These are rows of 16-bit numbers, so that many bars
// are looked at side by side. Each period is a power of two. The bar in a place that isn't used has no base.
#[derive(Drop)]
pub struct Bars<const N: usize> {
    start: [u16; N],
    ones: [u16; N],
    width: [u16; N],
    ghost near: { (i : ℕ) → i < N → slice_index start i ≤ around },
    ghost powers: { (i : ℕ) → i < N → Power (slice_index ones i + 1) } by { Powers-prop ones N },
}

// The bars of the live grants have a place for each seat, and those of the gaps one for each range.
pub const GRANT_PLACES: usize = MOST_SEATS;

pub const GAP_PLACES: usize = MOST_RANGES;

impl<const N: usize> Bars<N> {
    ghost use Rattle.std.specs.Prelude.{◌≡◌, ◌≢◌};
    ghost use Rattle.facts.specs.Table;
    ghost use Rattle.io_obstacles.specs.Powers.{Leaps};
    ghost use Rattle.io_obstacles.specs.Rows.{bar_at, LiesInBars};

    // Bars without a base.
    pub fn none() -> Self
        ensures { (limit x : ℕ) → LiesInBars result limit x → ⊥ }
    {
        Bars {
            start: [0; N],
            ones: [0; N],
            width: [0; N],
        }
    }

    // The bar in a place.
    fn at(&self, i: usize) -> Bar
        requires { i < N }
        ensures { result ≡ bar_at self.now i }
    {
        Bar {
            start: self.start[i],
            ones: self.ones[i],
            width: self.width[i],
        }
    }

    // A bar is entered in its place.
    pub fn enter(&mut self, i: usize, bar: Bar)
        requires { (i < N) × Power (bar.ones + 1) }
        ensures here { bar_at self.new i ≡ bar }
        ensures others { (j : ℕ) → j ≢ i → bar_at self.new j ≡ bar_at self.old j }
    {
        self.start[i] = bar.start;
        self.ones[i] = bar.ones;
        self.width[i] = bar.width;
    }

    // How far the farthest end lies ahead, of the bars that have the base and whose periods are no longer than the limit and one. For a base in two bars, one
    // that ends 5 bases ahead and one that ends 9 ahead, it is 9: every base up to there is barred.
    pub(crate) fn leap(&self, limit: u16, base: usize) -> usize
        requires { base < Table.all_ports }
        ensures { Leaps (LiesInBars self.now limit) base result }
    {
        let mut far: u16 = 0;
        for i in 0..N {
            far = far.max(self.at(i).ahead(limit, base as u16));
        }
        far as usize
    }

    // The periods of the bars, a bit for each: two to so many lines. A place that isn't used has a period of one. With bars of 10 and of 16 lines it is
    // 1 + 2^10 + 2^16.
    pub fn periods(&self) -> usize {
        let mut some = 0;
        for ones in &self.ones {
            some |= *ones as usize + 1;
        }
        some
    }
}
