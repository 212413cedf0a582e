// The base that a request for I/O ports without a base takes, on a table that is the image of a well-formed set.
#![tactic(auto)]

ghost use Rattle.std.specs.Prelude.{◌≡◌, ◌≤◌, ◌<◌};
ghost use Rattle.facts.specs.Table;
ghost use Rattle.facts.specs.Says.{Says};
ghost use Rattle.facts.specs.Io.{SmallestPower};
ghost use Rattle.layout.specs.Reading.{ranges_in};
ghost use Rattle.layout.specs.Sound.{Accepted, range_base};
ghost use Rattle.io_obstacles.specs.Stretches.{Barring};
ghost use Rattle.io_obstacles.specs.Searches.{Barred};
ghost use Rattle.io_candidates.specs.Candidates.{FollowsOn, ReachIs, SomeMarked, CandidateIn, StartsIn, Searched, FirstIs, Wants, TakenIs};

use facts::IoAsked;
use io_obstacles::{Bars, GRANT_PLACES, Reached, Search, Stretch, Wanted};
use layout::{MARKED, RANGE_RESERVED_AT, RANGE_SIZE, RANGES_AT, RANGES_IN};

// "candidates are the positive multiples".
const LEAST: usize = 1;

// The ranges whose ports count: those with a reserve mark up to this one.
const UNRESERVED: usize = 0;

const ALL: usize = MARKED;

// "the smallest power of two not below the count".
fn align(count: usize) -> usize
    requires { count ≤ Table.all_ports }
    ensures { SmallestPower count result }
{
    count.next_power_of_two()
}

// Whether the range `j` starts where others end, and its ports count.
fn follows(t: &[u8], j: usize, end: usize, most: usize) -> bool
    requires { Accepted t.now }
    ensures { Says result (FollowsOn t.now j end most) }
{
    if table_read::byte(t, RANGES_IN) <= j {
        return false;
    }
    let at = RANGES_AT + j * RANGE_SIZE;
    table_read::word(t, at) == end && table_read::byte(t, at + RANGE_RESERVED_AT) <= most
}

// How far the ports that count go on from the base of the range `i`, over the ranges that follow without a gap: no further than is wanted.
fn reach(t: &[u8], i: usize, most: usize, want: usize) -> usize
    requires { Accepted t.now × (i < ranges_in t.now) × (range_base t.now i ≤ want) }
    ensures { ReachIs t.now i most want result }
{
    let mut end = table_read::word(t, RANGES_AT + i * RANGE_SIZE);
    let mut j = i;
    while end < want {
        if !follows(t, j, end, most) {
            return end;
        }
        end = managed_search::range_end(t, j);
        j += 1;
    }
    want
}

// The candidate that a search found, if there is one, and the stretch of bases that it knows to be barred.
#[derive(Clone, Copy)]
pub struct Found {
    pub taken: Option<usize>,
    pub known: Stretch,
}

// The lowest candidate whose first port the range `i` has: the lowest multiple that nothing bars, of those whose ports end where the ports that count do.
fn first_in(t: &[u8], i: usize, most: usize, search: &Search, known: Stretch) -> Found
    requires accepted { Accepted t.now × (i < ranges_in t.now) }
    requires barring { Barring (Barred search.now) search.now.wanted.step known }
    ensures { Searched (Barred search.now) search.now.wanted.step
        (StartsIn t.now (Barred search.now) i most search.now.wanted.count search.now.wanted.step) result }
{
    let Wanted {
        count,
        step,
        limit,
        ..
    } = search.wanted;
    let base = table_read::word(t, RANGES_AT + i * RANGE_SIZE);
    let from = io_obstacles::up(base.max(LEAST), step);
    let end = reach(t, i, most, managed_search::range_end(t, i) + count - 1);
    let Reached { base: open, known } = search.lowest(known, from, end);
    if open + count <= end {
        return Found {
            taken: Some(open),
            known,
        };
    }
    let long = io_obstacles::period(limit, step);
    Found {
        taken: None,
        known: known.learnt(from, open, long),
    }
}

// The lowest candidate of all: the first one in the first range that has one. What is learnt in one range serves in the next.
fn first_of(t: &[u8], most: usize, search: &Search, mut known: Stretch) -> Found
    requires accepted { Accepted t.now }
    requires barring { Barring (Barred search.now) search.now.wanted.step known }
    ensures { Searched (Barred search.now) search.now.wanted.step
        (CandidateIn t.now (Barred search.now) most search.now.wanted.count search.now.wanted.step) result }
{
    let ranges = table_read::byte(t, RANGES_IN);
    for i in 0..ranges {
        let found = first_in(t, i, most, search, known);
        if found.taken.is_some() {
            return found;
        }
        known = found.known;
    }
    Found { taken: None, known }
}

// Whether some range has this reserve mark, or a higher one.
fn some_marked(t: &[u8], mark: usize) -> bool
    requires { Accepted t.now }
    ensures { Says result (SomeMarked t.now mark) }
{
    let ranges = table_read::byte(t, RANGES_IN);
    for i in 0..ranges {
        if mark <= table_read::byte(t, RANGES_AT + i * RANGE_SIZE + RANGE_RESERVED_AT) {
            return true;
        }
    }
    false
}

// "Candidates wholly in unreserved ranges come first, then the lowest": what the search in them finds, or else, where some range is reserved, what the
// search in all ranges does.
fn first(t: &[u8], search: &Search, mut known: Stretch) -> Option<usize>
    requires accepted { Accepted t.now }
    requires barring { Barring (Barred search.now) search.now.wanted.step known }
    ensures { FirstIs t.now (Barred search.now) search.now.wanted.count search.now.wanted.step result }
{
    for most in UNRESERVED..=ALL {
        if !some_marked(t, most) {
            return None;
        }
        let found = first_of(t, most, search, known);
        if found.taken.is_some() {
            return found.taken;
        }
        known = found.known;
    }
    None
}

// The base that is taken past the grants' bars, and past the gaps', which are looked at only where the grants don't bar every base. Where both do,
// there is none.
fn past_bars(t: &[u8], asked: IoAsked, grants: &Bars<GRANT_PLACES>, wanted: Wanted) -> Option<usize>
    requires { Accepted t.now × Wants t.now asked grants.now wanted }
    ensures { TakenIs t.now asked result }
{
    let known = wanted.passed(grants);
    if known.everywhere() {
        return None;
    }
    let mut gaps = Bars::none();
    io_bars::gap_bars(t, asked.count, asked.lines, &mut gaps);
    let search = Search {
        grants,
        gaps: &gaps,
        wanted,
    };
    let swept = search.swept(known);
    if swept.everywhere() {
        return None;
    }
    first(t, &search, swept)
}

// The base that is taken, of those that a request without a base can have.
pub fn choose(t: &[u8], asked: IoAsked) -> Option<usize>
    requires { Accepted t.now × (1 ≤ asked.count) × (asked.count < 256) × (asked.lines ≤ Table.most_lines) }
    ensures { TakenIs t.now asked result }
{
    let count = asked.count;
    let lines = asked.lines;
    let mut grants = Bars::none();
    io_bars::grant_bars(t, count, lines, &mut grants);
    let limit = io_obstacles::limit_of(lines);
    let wanted = Wanted {
        count,
        step: align(count),
        limit,
        few: io_obstacles::shortest(grants.periods(), limit),
        gaps: io_obstacles::gaps_count(lines),
    };
    past_bars(t, asked, &grants, wanted)
}
