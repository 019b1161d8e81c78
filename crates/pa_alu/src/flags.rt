//! The condition flags: how a comparison sets them, and the sixteen conditions on them.

ghost use Rattle.std.specs.Prelude.{◌≡◌};
ghost use Rattle.pa_object.specs.Machine.{flags_of_difference, condition_holds};

use crate::arithmetic::is_negative;
use pa_object::Flags;

/// The flags of `x` - `y`.
#[tactic(auto, unfolding(pa_object::specs::Machine::flags_of_difference, pa_num::specs::Arithmetic::sub64, pa_num::specs::Arithmetic::wrap))]
pub fn flags_of_difference(x: u64, y: u64) -> Flags
    ensures { result ≡ flags_of_difference x y }
{
    let difference = x.wrapping_sub(y);
    Flags {
        negative: is_negative(difference),
        zero: difference == 0,
        carry: y <= x,
        overflow: is_negative(x) != is_negative(y) && is_negative(difference) != is_negative(x),
    }
}

/// Whether the flags meet a condition: eq, ne, cs, cc, mi, pl, vs, vc, hi, ls, ge, lt, gt, le, and twice always.
#[tactic(auto, unfolding(pa_object::specs::Machine::condition_holds))]
pub fn meets(flags: Flags, condition: u8) -> bool
    ensures { result ≡ condition_holds condition flags }
{
    match condition {
        0 => flags.zero,
        1 => !flags.zero,
        2 => flags.carry,
        3 => !flags.carry,
        4 => flags.negative,
        5 => !flags.negative,
        6 => flags.overflow,
        7 => !flags.overflow,
        8 => flags.carry && !flags.zero,
        9 => !flags.carry || flags.zero,
        10 => flags.negative == flags.overflow,
        11 => flags.negative != flags.overflow,
        12 => !flags.zero && flags.negative == flags.overflow,
        13 => flags.zero || flags.negative != flags.overflow,
        _ => true,
    }
}
