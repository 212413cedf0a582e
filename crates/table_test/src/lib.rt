// The test of the whole table: whether its bytes are the image of a well-formed set.
#![tactic(auto)]

mod sockets;

ghost use Rattle.std.specs.Prelude.{◌≡◌, length};
ghost use Rattle.facts.specs.Says.{Says};
ghost use Rattle.layout.specs.Layout.{table_size};
ghost use Rattle.facts.specs.declared.Code.TheVariants.{GeneralFailure};
ghost use Rattle.facts.specs.Checks.{Checked};
ghost use Rattle.layout.specs.Sound.{Accepted, CountsSound, Sound};
ghost use Rattle.table_test.specs.Loading.{ListsSound, RestSound};

use crate::sockets::sockets_sound;
use facts::Code;
use layout::TABLE_SIZE;
use table_clients::clients_sound;
use table_lists::counts::{counts_sound, ranges_end, seats_end};
use table_lists::levels::levels_sound;
use table_lists::ranges::ranges_sound;
use table_masks::{masks_end, masks_sound};

// The masks, and what no range, no seat and no client uses.
fn rest_sound(t: &[u8]) -> bool
    requires { (length t.now ≡ table_size) × CountsSound t.now }
    ensures { Says result (RestSound t.now) }
{
    ranges_end(t) && seats_end(t) && masks_sound(t) && masks_end(t)
}

// The head, the levels, the clients' numbers and the ranges.
fn lists_sound(t: &[u8]) -> bool
    requires { length t.now ≡ table_size }
    ensures { Says result (ListsSound t.now) }
{
    counts_sound(t) && levels_sound(t) && clients_sound(t) && ranges_sound(t)
}

// "Any other bytes, or another length, are refused with GENERAL_FAILURE": whether the bytes are the image of a well-formed set. In three parts: the compiler
// takes what follows many tests for rare, and a rare part would not be built into the test.
fn sound(t: &[u8]) -> bool
    ensures { Says result (Sound t.now) }
{
    t.len() == TABLE_SIZE && lists_sound(t) && sockets_sound(t) && rest_sound(t)
}

// What every entry begins with, but the one that makes a table.
pub fn load(t: &[u8]) -> Result<(), Code>
    ensures { Checked (Accepted t.now) GeneralFailure result }
{
    if sound(t) {
        Ok(())
    } else {
        Err(Code::GeneralFailure)
    }
}
