// Ports: when two ranges meet, and when they overlap.
#![tactic(auto)]

ghost use Rattle.std.specs.Prelude.{◌≡◌, ◌^◌, ◌<◌, ◌≤◌};
ghost use Rattle.facts.specs.Says.{Says};
ghost use Rattle.facts.specs.Table.{all_ports, most_lines};
ghost use Rattle.facts.specs.Ports.{Meet, Overlap};

use facts::Ports;
use layout::ALL_PORTS;

// Two to the power of `k`.
pub fn power(k: usize) -> usize
    requires { k ≤ most_lines }
    ensures { result ≡ 2 ^ k }
{
    1 << k
}

// Whether the `count` ports from `base` on and the `count2` from `base2` on have one in common.
pub fn overlaps(base: usize, count: usize, base2: usize, count2: usize) -> bool
    ensures { Says result (Overlap base count base2 count2) }
{
    if base < base2 {
        if count2 == 0 {
            return false;
        }
        return base2 - base < count;
    }
    if count == 0 {
        return false;
    }
    base - base2 < count2
}

// "Two ranges meet when some port of one equals some port of the other modulo two to the smaller of their decoded line counts."
pub fn meets(a: Ports, b: Ports) -> bool
    requires { (a.base < all_ports) × (a.count ≤ all_ports) × (a.lines ≤ most_lines) × (b.base < all_ports) × (b.lines ≤ most_lines) × (b.count ≤ all_ports) }
    ensures { Says result (Meet a b) }
{
    if a.count == 0 || b.count == 0 {
        return false;
    }
    let modulus = power(a.lines.min(b.lines));
    let behind = (a.base + a.count - 1 + ALL_PORTS - b.base) % modulus;
    behind < a.count + b.count - 1
}
