// A change of what is managed: the resource types, and the bits that Add and Remove allow. What a change answers is in specs/.
#![tactic(auto)]

ghost use Rattle.std.specs.Prelude.{◌≡◌};
ghost use Rattle.facts.specs.declared.Code.TheVariants.{BadAttribute};
ghost use Rattle.facts.specs.Checks.{Checked};
ghost use Rattle.managed_changes.specs.Changing.{ReserveIs};
ghost use Rattle.managed_changes.specs.Named.{ResourceIs};

use facts::{Code, IO_RESOURCE, IRQ_RESOURCE};

// What is managed: ranges of I/O ports, and IRQ levels.
#[derive(Clone, Copy, Debug, PartialEq, Eq)]
pub enum Resource {
    Io,
    Irq,
}

// "Resource 0, 3, 4: UNSUPPORTED_SERVICE; over 4: BAD_ARGS."
impl TryFrom<u8> for Resource {
    type Error = Code;

    ghost try_from_gives = { ResourceIs };

    fn try_from(resource: u8) -> Result<Self, Code> {
        match resource {
            IO_RESOURCE => Ok(Resource::Io),
            IRQ_RESOURCE => Ok(Resource::Irq),
            0 | 3..=4 => Err(Code::UnsupportedService),
            5..=0xFF => Err(Code::BadArgs),
        }
    }
}

// "Add (1) allows only bit 6, reserve": the reserve mark that is asked for, or other bits.
const RESERVE: u8 = 0x40;

pub fn reserve_asked(attributes: u8) -> Result<u8, Code>
    ensures { ReserveIs attributes result }
{
    match attributes {
        0x00 => Ok(0),
        RESERVE => Ok(1),
        _ => Err(Code::BadAttribute),
    }
}

// "Remove (0) no bit".
pub fn no_bit(attributes: u8) -> Result<(), Code>
    ensures { Checked (attributes ≡ 0) BadAttribute result }
{
    if attributes == 0 {
        Ok(())
    } else {
        Err(Code::BadAttribute)
    }
}
