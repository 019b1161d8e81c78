ghost use Rattle.std.specs.Prelude.{◌≡◌, map, codes};
ghost use Rattle.pa_object.specs.Linkable.{Ascends};
ghost use Rattle.pa_image.specs.Places.{function_at};
ghost use Rattle.pa_check.specs.Text.{is_marked};

use pa_object::Mark;

/// Whether one of these marks, which ascend, stands at the word of this number.
pub(crate) fn is_marked(marks: &[Mark], k: usize) -> bool
    requires { Ascends (map (λ mark. mark.at) marks.now) }
    ensures { result ≡ is_marked marks.now k }
{
    let mut low = 0;
    let mut high = marks.len();
    while low < high {
        let middle = low + (high - low) / 2;
        if (marks[middle].at as usize) < k {
            low = middle + 1;
        } else {
            high = middle;
        }
    }
    low < marks.len() && marks[low].at as usize == k
}

/// Where the first function named `_main` begins, as an offset.
pub(crate) fn main_of(marks: &[Mark]) -> Option<u64>
    ensures { result ≡ function_at 0 marks.now (codes "_main") }
{
    for mark in marks {
        if b"_main".as_slice() == mark.name.as_slice() {
            return Some(0x400 + 4 * u64::from(mark.at));
        }
    }
    None
}
