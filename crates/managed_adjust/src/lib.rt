// AdjustResourceInfo, on a table that is the image of a well-formed set: each action, and the way to it.
#![tactic(auto)]

ghost use Rattle.std.specs.Prelude.{◌≡◌, length};
ghost use Rattle.facts.specs.Resources;
ghost use Rattle.facts.specs.Resources.{AddLevel, RemoveLevel, ShowLevel, AddRange, RemoveRange, ShowRange, AdjustResourceInfo};
ghost use Rattle.layout.specs.Sound.{Accepted};
ghost use Rattle.managed_packets.specs.Fields.{number_of};
ghost use Rattle.managed_adjust.specs.Adjusting.{Reached, Shows, ServesBy};

use facts::{Code, Handle, Width};
use managed_changes::Resource;
use managed_packets::Action;

// "IRQ: attributes at 2, level at 3."
const LEVEL_LENGTH: usize = 4;

const LEVEL_ATTRIBUTES_AT: usize = 2;

const LEVEL_AT: usize = 3;

fn add_level(t: &mut [u8], h: Handle, p: &[u8]) -> Result<Handle, Code>
    requires { Accepted t.old × (length p.now ≡ Resources.irq_adjust_length) }
    ensures { ServesBy AddLevel h.0 p.now p.now t.old t.new result }
{
    managed_levels::add(t, u32::from(p[LEVEL_AT]), p[LEVEL_ATTRIBUTES_AT])?;
    Ok(h)
}

fn remove_level(t: &mut [u8], h: Handle, p: &[u8]) -> Result<Handle, Code>
    requires { Accepted t.old × (length p.now ≡ Resources.irq_adjust_length) }
    ensures { ServesBy RemoveLevel h.0 p.now p.now t.old t.new result }
{
    managed_levels::remove(t, u32::from(p[LEVEL_AT]), p[LEVEL_ATTRIBUTES_AT])?;
    Ok(h)
}

fn show_level(t: &[u8], p: &mut [u8], action: Action) -> Result<Handle, Code>
    requires { Accepted t.now × (length p.old ≡ Resources.irq_adjust_length) × Shows p.old (number_of action) }
    ensures { ServesBy ShowLevel 0 p.old p.new t.now t.now result }
{
    let from = managed_packets::from(u8::from(action), u32::from(p[LEVEL_AT]));
    let l = managed_levels::next(t, from).ok_or(Code::NoMoreItems)?;
    let holders = managed_holders::of_level(t, l);
    p[LEVEL_ATTRIBUTES_AT] = managed_packets::attributes_shown(holders);
    p[LEVEL_AT] = l as u8;
    Ok(managed_packets::handle_shown(holders))
}

fn add_range(t: &mut [u8], h: Handle, p: &[u8], w: Width) -> Result<Handle, Code>
    requires { Accepted t.old × (length p.now ≡ Resources.io_adjust_length w) }
    ensures { ServesBy (AddRange w) h.0 p.now p.now t.old t.new result }
{
    managed_ranges::add(t, managed_packets::asked(p, w))?;
    Ok(h)
}

fn remove_range(t: &mut [u8], h: Handle, p: &[u8], w: Width) -> Result<Handle, Code>
    requires { Accepted t.old × (length p.now ≡ Resources.io_adjust_length w) }
    ensures { ServesBy (RemoveRange w) h.0 p.now p.now t.old t.new result }
{
    managed_ranges::remove(t, managed_packets::asked(p, w))?;
    Ok(h)
}

fn show_range(t: &[u8], p: &mut [u8], w: Width, action: Action) -> Result<Handle, Code>
    requires { Accepted t.now × (length p.old ≡ Resources.io_adjust_length w) × Shows p.old (number_of action) }
    ensures { ServesBy (ShowRange w) 0 p.old p.new t.now t.now result }
{
    let from = managed_packets::from(u8::from(action), managed_packets::asked(p, w).base);
    let (base, count) = managed_ranges::next(t, from).ok_or(Code::NoMoreItems)?;
    managed_packets::can_show(w, count)?;
    let holders = managed_holders::of_range(t, base, count);
    managed_packets::write(
        p,
        w,
        base,
        count,
        managed_packets::attributes_shown(holders),
    );
    Ok(managed_packets::handle_shown(holders))
}

fn adjust_irq(t: &mut [u8], h: Handle, p: &mut [u8], action: Action) -> Result<Handle, Code>
    requires { Accepted t.old × Reached p.old (number_of action) Resources.irq_level }
    ensures { ServesBy AdjustResourceInfo h.0 p.old p.new t.old t.new result }
{
    service_checks::sized(p, LEVEL_LENGTH)?;
    match action {
        Action::Remove => remove_level(t, h, p),
        Action::Add => add_level(t, h, p),
        Action::First | Action::Next => show_level(t, p, action),
    }
}

fn adjust_io(t: &mut [u8], h: Handle, p: &mut [u8], action: Action) -> Result<Handle, Code>
    requires { Accepted t.old × Reached p.old (number_of action) Resources.io_range }
    ensures { ServesBy AdjustResourceInfo h.0 p.old p.new t.old t.new result }
{
    let w = managed_packets::width_of(p)?;
    match action {
        Action::Remove => remove_range(t, h, p, w),
        Action::Add => add_range(t, h, p, w),
        Action::First | Action::Next => show_range(t, p, w, action),
    }
}

pub fn adjust(t: &mut [u8], h: Handle, p: &mut [u8]) -> Result<Handle, Code>
    requires { Accepted t.old }
    ensures { ServesBy AdjustResourceInfo h.0 p.old p.new t.old t.new result }
{
    let (action, resource) = managed_packets::named(p)?;
    let action = Action::try_from(action)?;
    match Resource::try_from(resource) {
        Ok(Resource::Io) => adjust_io(t, h, p, action),
        Ok(Resource::Irq) => adjust_irq(t, h, p, action),
        Err(code) => Err(code),
    }
}
