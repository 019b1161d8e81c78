//! Tables of fields and names in the bytes of a file, and checks in a fixed order of which the first that fails is the answer.
#![tactic(auto)]

mod checks;
mod field;
mod names;
mod number;
mod zeros;

pub use checks::{Flaw, check, check_fields, check_told, check_zeros};
pub use field::{FileField, Width, all_fit, first_wrong, put_fields};
pub use names::{is_name, name_length};
pub use number::{number_of_eight, number_of_four, number_of_two};
pub use zeros::{first_nonzero, put_zeros};
