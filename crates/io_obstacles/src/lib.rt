// What bars the bases that a request could take: for each live grant a stretch of them, which repeats, and for each gap between the managed ranges
// another; and the search that leaps from the end of one to the next.
#![tactic(auto)]

ghost use Rattle.std.specs.Prelude.{◌≡◌, ◌+◌, ◌^◌, ◌<◌, ◌≤◌};
ghost use Rattle.facts.specs.Table;
ghost use Rattle.facts.specs.Says.{Says};
ghost use Rattle.io_obstacles.specs.Powers.{around, Power, FirstMultiple, Period};
ghost use Rattle.io_obstacles.specs.Unique.{Power-prop};

use layout::{ALL_PORTS, MOST_LINES};

mod rows;
mod stretches;

pub use rows::{Bar, Bars, GAP_PLACES, GRANT_PLACES};
pub use stretches::Stretch;

// The period of a place that isn't used.
const UNUSED: usize = 1;

// The first multiple of the step at or past a number. For the step 8 and 303H it is 308H: 303H and 7 are 30AH, and its low three bits, 2, are taken away.
pub fn up(from: usize, step: usize) -> usize
    requires { (from ≤ around + around) × Power step }
    ensures { FirstMultiple from step result }
{
    let top = from + step - 1;
    top - (top & (step - 1))
}

// The period of what is barred whose periods are no longer than the limit and one, for bases that are multiples of the step.
pub fn period(limit: u16, step: usize) -> usize
    requires { Power (limit + 1) × Power step }
    ensures { Period limit step result }
{
    step.max(limit as usize + 1)
}

// Two to so many lines, less one: no bar that so many lines decide has a longer period, less one.
pub fn limit_of(lines: usize) -> u16
    requires { lines ≤ Table.most_lines }
    ensures { result + 1 ≡ 2 ^ lines }
{
    (io_ranges::power(lines) - 1) as u16
}

// The shortest of the periods, less one, but for that of places that aren't used; the limit, where none is shorter. Of bars of 10 and of 16 lines it is
// 2^10 - 1: the trailing zeros of 2^10 + 2^16 are the ten lines.
pub fn shortest(periods: usize, limit: u16) -> u16
    requires { Power (limit + 1) }
    ensures { Power (result + 1) × (result ≤ limit) }
{
    let lines = (periods - periods % 2).trailing_zeros() as usize;
    limit.min(limit_of(lines.min(MOST_LINES)))
}

// Whether gaps bar a base. A card that decodes all lines answers at its own ports alone, and for it they don't count.
pub fn gaps_count(lines: usize) -> bool
    ensures { Says result (lines < Table.most_lines) }
{
    lines < MOST_LINES
}

// What a search looks for: so many ports, at multiples of the step; which bars count, those whose periods are no longer than the limit and one; which of
// them come again soonest, those whose periods are no longer than `few` and one; and whether the gaps' bars count.
#[derive(Clone, Copy)]
pub struct Wanted {
    pub count: usize,
    pub step: usize,
    pub limit: u16,
    pub few: u16,
    pub gaps: bool,
    pub ghost ports: { (1 ≤ count) × (count < 256) },
    pub ghost step_power: { Power step } by { Power-prop step },
    pub ghost limit_power: { Power (limit + 1) } by { Power-prop (limit + 1) },
    pub ghost few_power: { Power (few + 1) } by { Power-prop (few + 1) },
    pub ghost fewer: { few ≤ limit },
}

impl Wanted {
    ghost use Rattle.io_obstacles.specs.Powers.{Multiple};
    ghost use Rattle.io_obstacles.specs.Rows.{LiesInBars};
    ghost use Rattle.io_obstacles.specs.Stretches.{Barring};
    ghost use Rattle.io_obstacles.specs.Searches.{Opened};

    // The lowest multiple of the step from one on that lies in no grant's bar with a period of the limit and one, or less; or the first whose ports don't
    // end at or before a number.
    fn run_end(&self, grants: &Bars<GRANT_PLACES>, limit: u16, from: usize, end: usize) -> usize
        requires { Multiple self.now.step from × (from ≤ around + around) × (end < Table.all_ports + self.now.count) }
        ensures { Opened (LiesInBars grants.now limit) self.now.step self.now.count from end result }
    {
        let mut base = from;
        while base + self.count <= end {
            let far = grants.leap(limit, base);
            if far == 0 {
                return base;
            }
            base = up(base + far, self.step);
        }
        base
    }

    // The bases from 0 on that the grants bar, the shortest periods first; for longer periods the search goes on where it stands. With cards of 8 and of 10
    // lines it goes along the bars of the first one, up to 100H at most, and then along the bars of both, up to 400H at most. Where it gets to such an end,
    // every base is barred. Where no bar has a shorter period than all ports, nothing comes again, and there is nothing to learn.
    pub fn passed(&self, grants: &Bars<GRANT_PLACES>) -> Stretch
        ensures { Barring (LiesInBars grants.now self.now.limit) self.now.step result }
    {
        let some = grants.periods();
        let mut known = Stretch::nowhere();
        if some % ALL_PORTS <= UNUSED {
            return known;
        }
        let mut base = 0;
        for most in 1..MOST_LINES {
            if !table_read::is_set(some, most) {
                continue;
            }
            let limit = limit_of(most);
            if self.limit < limit {
                return known;
            }
            let long = period(limit, self.step);
            base = self.run_end(grants, limit, base, long + self.count - 1);
            known = known.learnt(0, base, long);
            if known.everywhere() {
                return known;
            }
        }
        known
    }
}

// Where a search came to, and the stretch that it knows to be barred.
#[derive(Clone, Copy)]
pub struct Reached {
    pub base: usize,
    pub known: Stretch,
}

// The longest period that is swept: that of 14 lines. Past longer ones the search in the ranges is shorter.
const MOST_SWEPT: usize = 16384;

// A search past the bars of the grants and the gaps, for what is wanted.
#[derive(Clone, Copy)]
pub struct Search<'a> {
    pub grants: &'a Bars<GRANT_PLACES>,
    pub gaps: &'a Bars<GAP_PLACES>,
    pub wanted: Wanted,
}

impl Search<'_> {
    ghost use Rattle.io_obstacles.specs.Powers.{Multiple, Leaps};
    ghost use Rattle.io_obstacles.specs.Stretches.{Barring};
    ghost use Rattle.io_obstacles.specs.Searches.{Barred, OpenedIs};

    // How far the search can leap from a base: to the farthest end of the grants' bars that have it, or else of the gaps'.
    fn leap(&self, base: usize) -> usize
        requires { base < Table.all_ports }
        ensures { Leaps (Barred self.now) base result }
    {
        let limit = self.wanted.limit;
        let far = self.grants.leap(limit, base);
        if far != 0 {
            return far;
        }
        if !self.wanted.gaps {
            return 0;
        }
        self.gaps.leap(limit, base)
    }

    // The lowest multiple of the step from one on that nothing bars, or the first whose ports don't end at or before a number: from one that is barred, the
    // search goes on at the first past what is known, or else past the run of bars that come again soonest, or else past the farthest bar. The longest such
    // run is learnt: where ranges lie 2,048 ports apart and cards decode 11 lines, what bars the bases of the first range bars those of each.
    pub fn lowest(&self, mut known: Stretch, from: usize, end: usize) -> Reached
        requires multiple { Multiple self.now.wanted.step from × (from ≤ around + around) × (end < Table.all_ports + self.now.wanted.count) }
        requires barring { Barring (Barred self.now) self.now.wanted.step known }
        ensures { OpenedIs self.now from end result }
    {
        let Wanted {
            count,
            step,
            few,
            ..
        } = self.wanted;
        let again = period(few, step);
        let mut base = from;
        while base + count <= end {
            let near = known.ahead(base);
            if near != 0 {
                base = up(base + near, step);
                continue;
            }
            let run = self.wanted.run_end(self.grants, few, base, end);
            known = known.learnt(base, run, again);
            if end < run + count {
                return Reached { base: run, known };
            }
            let far = self.leap(run);
            if far == 0 {
                return Reached { base: run, known };
            }
            base = up(run + far, step);
        }
        Reached { base, known }
    }

    // What is known of a whole period, past grants and gaps, if it is short: for a card that decodes ten lines, that no base from 0 to 3FF is free says that
    // none is, and no range is searched.
    pub fn swept(&self, known: Stretch) -> Stretch
        requires { Barring (Barred self.now) self.now.wanted.step known }
        ensures { Barring (Barred self.now) self.now.wanted.step result }
    {
        let step = self.wanted.step;
        let long = period(self.wanted.limit, step);
        if MOST_SWEPT < long {
            return known;
        }
        let mut base = 0;
        while base < long {
            let far = self.leap(base);
            if far == 0 {
                break;
            }
            base = up(base + far, step);
        }
        known.learnt(0, base, long)
    }
}
