// RequestIRQ and ReleaseIRQ, on a table that is the image of a well-formed set.
#![tactic(auto)]

ghost use Rattle.std.specs.Prelude.{◌≡◌, ◌<◌, length};
ghost use Rattle.facts.specs.declared.Code.TheVariants.{BadAttribute};
ghost use Rattle.facts.specs.Checks.{Checked};
ghost use Rattle.facts.specs.Levels.{type_of};
ghost use Rattle.facts.specs.Irq.{type_asked_lem};
ghost use Rattle.layout.specs.Sound.{Accepted};
ghost use Rattle.irq_services.specs.Granting.{RequestServed, ReleaseServed};

use facts::{Code, Handle, Manner};
use irq_packets::ASSIGNED_AT;
use seats::NOBODY;
use service_checks::CardNeed;

// The packet of RequestIRQ (5.53) is 8 bytes, that of ReleaseIRQ (5.45) is 5.
const REQUEST_LENGTH: usize = 8;

const RELEASE_LENGTH: usize = 5;

pub fn request(t: &mut [u8], h: Handle, p: &mut [u8]) -> Result<Handle, Code>
    requires { Accepted t.old }
    ensures { RequestServed h.0 p.old p.new t.old t.new result }
{
    let (_, seat) = service_checks::begin(t, h, p, REQUEST_LENGTH, CardNeed::Needed)?;
    irq_packets::attributes_asked(p)?;
    irq_packets::info_asked(p)?;
    let held = seats::level_held(t, seat).is_some();
    if held {
        return Err(Code::InUse);
    }
    let asked = irq_packets::asked(p);
    let level = irq_fitting::choose(t, asked).ok_or(Code::BadIrq)?;
    grants::enter_level(t, seat, h, level, irq_levels::manner_byte(asked.manner));
    irq_packets::assign(p, asked.manner, level);
    Ok(h)
}

// The packet's type bits are those of the manner.
fn same_type(p: &[u8], m: Manner) -> Result<(), Code>
    requires { 3 < length p.now }
    ensures { Checked (type_of m ≡ type_asked_lem p.now) BadAttribute result }
{
    if irq_levels::type_of(m) == irq_packets::type_asked(p) {
        Ok(())
    } else {
        Err(Code::BadAttribute)
    }
}

pub fn release(t: &mut [u8], h: Handle, p: &[u8]) -> Result<Handle, Code>
    requires { Accepted t.old }
    ensures { ReleaseServed h.0 p.now t.old t.new result }
{
    let (_, seat) = service_checks::begin(t, h, p, RELEASE_LENGTH, CardNeed::Ignored)?;
    let manner = grants::level_of(t, seat, h, table_read::byte(p, ASSIGNED_AT))?;
    same_type(p, manner)?;
    grants::enter_level(t, seat, NOBODY, 0, 0);
    Ok(h)
}
