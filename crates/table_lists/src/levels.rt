// The IRQ levels: a record for each.
ghost use Rattle.std.specs.Prelude.{◌≡◌, ◌/◌, ◌%◌, ◌≤◌, eqb, length};
ghost use Rattle.facts.specs.Says.{Says};
ghost use Rattle.layout.specs.Layout.{table_size};
ghost use Rattle.table_lists.specs.Parts.{LevelsSound};

use layout::{ALL_LEVELS, LEVEL_SIZE, LEVELS_AT};

// A byte has so many numbers, and a mark so many.
const ALL_BYTES: u16 = 256;

const MARKS: u16 = 2;

// "an unmanaged level isn't reserved": what is wrong with a level's two marks, which are one number, 0 if nothing is. It is 0 for the marks 0 and 0, 1 and 0, 1
// and 1, of which the numbers are 0, 1 and 257; for 0 and 1, which is 256, the second is 1 over the first; for 2 and 0 it is 2 / 2.
fn level_flaw(marks: u16) -> u16
    ensures { Says (eqb result 0) ((marks % 256 ≤ 1) × (marks / 256 ≤ marks % 256)) }
{
    let managed = marks % ALL_BYTES;
    let reserved = marks / ALL_BYTES;
    managed / MARKS | reserved.saturating_sub(managed)
}

// What is wrong with any of the levels or-ed together, with no early exit.
pub fn levels_sound(t: &[u8]) -> bool
    requires { length t.now ≡ table_size }
    ensures { Says result (LevelsSound t.now) }
{
    let mut flaws = 0;
    for l in 0..ALL_LEVELS {
        flaws |= level_flaw(table_read::word_u16(t, LEVELS_AT + l * LEVEL_SIZE));
    }
    flaws == 0
}
