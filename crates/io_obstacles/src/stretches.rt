// Stretches of bases that a search knows to be barred.
use layout::ALL_PORTS;

// Twice all ports: a multiple of every period, from which a start is taken away.
const AROUND: u32 = 131072;

// A stretch of bases: so many from a start on, and again after each period. The period is a power of two; less one, its bits are all ones.
#[derive(Clone, Copy)]
pub struct Stretch {
    pub start: u32,
    pub ones: u32,
    pub width: u32,
}

impl Stretch {
    ghost use Rattle.std.specs.Prelude.{◌≡◌, ◌≤◌};
    ghost use Rattle.facts.specs.Table;
    ghost use Rattle.io_obstacles.specs.Powers.{Power, Leaps};
    ghost use Rattle.io_obstacles.specs.Stretches.{Lies, StretchFits, LearntIs, Everywhere};

    // The stretch that has no base.
    pub(crate) fn nowhere() -> Self
        ensures { (result.start ≡ 0) × (result.ones ≡ 0) × (result.width ≡ 0) }
    {
        Stretch {
            start: 0,
            ones: 0,
            width: 0,
        }
    }

    // Whether the stretch has every base.
    pub fn everywhere(self) -> bool
        ensures { Everywhere self result }
    {
        self.ones < self.width
    }

    // How far the end of the stretch lies ahead of a base in it; 0 where the base isn't. Of 10 bases from 2FD on, again after each 400H, the base 700H lies 3
    // past the start: 700H + 20000H - 2FDH is 20403H, and its low ten bits are 3. So the end lies 10 - 3 bases ahead, at 707H.
    pub(crate) fn ahead(self, base: usize) -> usize
        requires { StretchFits self × (base ≤ Table.all_ports) }
        ensures { Leaps (Lies self) base result }
    {
        let behind = (base as u32 + AROUND - self.start) & self.ones;
        self.width.saturating_sub(behind) as usize
    }

    // A search that went from one base to another found none free, so that none is after a period: the longer of this stretch and the one known. What
    // doesn't come again isn't worth knowing.
    pub fn learnt(self, from: usize, to: usize, period: usize) -> Self
        requires { Power period }
        ensures { LearntIs self from to period result }
    {
        if ALL_PORTS <= period {
            return self;
        }
        let end = to.min(ALL_PORTS);
        if end <= from {
            return self;
        }
        let width = end - from;
        if width <= self.width as usize {
            return self;
        }
        Stretch {
            start: from as u32,
            ones: (period - 1) as u32,
            width: width as u32,
        }
    }
}
