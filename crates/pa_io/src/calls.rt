ghost use Rattle.std.specs.Prelude.{◌≡◌};
ghost use Rattle.std.specs.Bool.{OnTrue, OnFalse};
ghost use Rattle.pa_io.specs.Calls.{next_count, is_to_fail, failures};
ghost use Rattle.pa_io.specs.Outside.{Rose};

use pa_num::Sequence;

/// Numbers of calls, counted from 1.
pub type Calls = Sequence<u64>;

/// Whether the call after these ones is listed as one that fails.
fn is_listed(fails: &[u64], calls: u64) -> bool
    ensures { result ≡ is_to_fail fails.now calls }
{
    fails.iter().any(|call| *call > 0 && *call - 1 == calls)
}

/// Counts a call, and answers whether it is one that fails.
pub(crate) fn count_call(calls: &mut u64, fails: &[u64]) -> bool
    ensures answer { result ≡ is_to_fail fails.now calls.old }
    ensures counted { calls.new ≡ next_count calls.old }
    ensures fault { OnTrue result (Rose (failures fails.now calls.old) (failures fails.now calls.new)) }
    ensures others { OnFalse result (failures fails.now calls.new ≡ failures fails.now calls.old) }
{
    let listed = is_listed(fails, *calls);
    *calls = calls.saturating_add(1);
    listed
}
