// The packets of RequestIO and ReleaseIO: what they ask for.
#![tactic(auto)]

ghost use Rattle.std.specs.Prelude.{◌≡◌, ◌<◌, ◌≤◌, length};
ghost use Rattle.facts.specs.Table;
ghost use Rattle.facts.specs.Says.{Says};
ghost use Rattle.facts.specs.Packets.{bit};
ghost use Rattle.facts.specs.Io.{request_io_length, base_asked_lem, count_asked_lem, io_attributes, lines_asked_lem, io_asked, IoShared, IoFirstShared};
ghost use Rattle.facts.specs.Io.{IoAttributesBad, IoSizeBad, second_count};
ghost use Rattle.facts.specs.declared.Code.TheVariants.{BadAttribute, BadSize};
ghost use Rattle.facts.specs.Checks.{Checked, RefusedIf};

use facts::{Code, IoAsked};
use layout::MOST_LINES;

// RequestIO's packet (5.52) and ReleaseIO's (5.44): their length, and where the fields stand. What isn't here is ignored.
pub const LENGTH: usize = 11;

pub const BASE_AT: usize = 2;

pub const COUNT_AT: usize = 4;

const ATTRIBUTES_AT: usize = 5;

const SECOND_COUNT_AT: usize = 8;

pub const LINES_AT: usize = 10;

// The attributes: the places of the two bits that count. A request has none from bit 4 on; bits 2 and 3 have no effect.
const SHARED: usize = 0;

const FIRST_SHARED: usize = 1;

const ALL_ATTRIBUTES: usize = 16;

// The numbers that a packet gives.
pub fn base_asked(p: &[u8]) -> usize
    requires { length p.now ≡ request_io_length }
    ensures { (result ≡ base_asked_lem p.now) × (result < 65536) }
{
    table_read::word(p, BASE_AT)
}

pub fn count_asked(p: &[u8]) -> usize
    requires { length p.now ≡ request_io_length }
    ensures { (result ≡ count_asked_lem p.now) × (result < 256) }
{
    table_read::byte(p, COUNT_AT)
}

pub fn lines_asked(p: &[u8]) -> usize
    requires { length p.now ≡ request_io_length }
    ensures { (result ≡ lines_asked_lem p.now) × (result < 256) }
{
    table_read::byte(p, LINES_AT)
}

fn attribute_set(p: &[u8], place: usize) -> bool
    requires { (length p.now ≡ request_io_length) × (place < 16) }
    ensures { Says result (bit (io_attributes p.now) place ≡ 1) }
{
    table_read::is_set(table_read::byte(p, ATTRIBUTES_AT), place)
}

fn shared(p: &[u8]) -> bool
    requires { length p.now ≡ request_io_length }
    ensures { Says result (IoShared p.now) }
{
    attribute_set(p, SHARED)
}

fn first_shared(p: &[u8]) -> bool
    requires { length p.now ≡ request_io_length }
    ensures { Says result (IoFirstShared p.now) }
{
    attribute_set(p, FIRST_SHARED)
}

// "First Shared without Shared"
fn first_alone(p: &[u8]) -> bool
    requires { length p.now ≡ request_io_length }
    ensures { Says result (IoFirstShared p.now × (IoShared p.now → ⊥)) }
{
    first_shared(p) && !shared(p)
}

// Attributes and lines are ones that a request may have: "attribute bits outside section 5.52's list, First Shared without Shared, or lines
// outside 1 to 16, BAD_ATTRIBUTE".
pub fn attributes_asked(p: &[u8]) -> Result<(), Code>
    requires { length p.now ≡ request_io_length }
    ensures { RefusedIf (IoAttributesBad p.now) BadAttribute result }
{
    if ALL_ATTRIBUTES <= table_read::byte(p, ATTRIBUTES_AT) || first_alone(p) {
        return Err(Code::BadAttribute);
    }
    let lines = lines_asked(p);
    if lines == 0 || MOST_LINES < lines {
        return Err(Code::BadAttribute);
    }
    Ok(())
}

// No second range is asked for: "NumPorts2 not 0, BAD_SIZE".
pub fn second_asked(p: &[u8]) -> Result<(), Code>
    requires { length p.now ≡ request_io_length }
    ensures { Checked (second_count p.now ≡ 0) BadSize result }
{
    if table_read::byte(p, SECOND_COUNT_AT) == 0 {
        Ok(())
    } else {
        Err(Code::BadSize)
    }
}

// "NumPorts1 0 or over two to the lines, or NumPorts2 not 0, BAD_SIZE"
pub fn sizes_asked(p: &[u8]) -> Result<(), Code>
    requires { (length p.now ≡ request_io_length) × (lines_asked_lem p.now ≤ Table.most_lines) }
    ensures { RefusedIf (IoSizeBad p.now) BadSize result }
{
    let count = count_asked(p);
    if count == 0 || io_ranges::power(lines_asked(p)) < count {
        return Err(Code::BadSize);
    }
    second_asked(p)
}

// What a packet of RequestIO asks for.
pub fn asked(p: &[u8]) -> IoAsked
    requires { length p.now ≡ request_io_length }
    ensures { (result ≡ io_asked p.now) × (result.base < 65536) × (result.count < 256) }
{
    let base = base_asked(p);
    let count = count_asked(p);
    let lines = lines_asked(p);
    let shared = shared(p);
    let first = first_shared(p);
    IoAsked {
        base,
        count,
        lines,
        shared,
        first,
    }
}
