ghost use Rattle.std.specs.Prelude.{◌≡◌, ◌≤◌, length};
ghost use Rattle.pa_num.specs.declared.fault.Fault.TheVariants.{Refused};
ghost use Rattle.pa_layout.specs.Flaws.{Answers, flaw_of, Fields, Told, Zeros, Holds};

use crate::field::{FileField, first_wrong};
use crate::zeros::first_nonzero;
use pa_num::{Fault, ImageRule};

/// A rule of images that bytes break, with the place that the rule tells.
#[derive(Clone, Copy, Debug, PartialEq, Eq)]
pub struct Flaw {
    pub rule: ImageRule,
    pub place: u64,
}

impl From<Flaw> for Fault<ImageRule> {
    ghost from_gives = { λ flaw fault. fault ≡ Refused flaw.rule flaw.place };

    fn from(flaw: Flaw) -> Fault<ImageRule> {
        Fault::Refused {
            rule: flaw.rule,
            place: flaw.place,
        }
    }
}

/// The rule is broken at `place` unless the test holds.
#[tactic(auto, unfolding(crate::specs::Flaws::flaw_of))]
pub fn check(bytes: &[u8], rule: ImageRule, place: u64, holds: bool) -> Result<(), Flaw>
    ensures { Answers result (flaw_of (Holds rule place holds) bytes.now) }
{
    if holds {
        Ok(())
    } else {
        Err(Flaw { rule, place })
    }
}

/// The rule is broken at the first field that doesn't stand in the bytes, where they stand one after another from `start`
/// on.
#[tactic(auto, unfolding(crate::specs::Flaws::flaw_of))]
pub fn check_fields(
    bytes: &[u8],
    rule: ImageRule,
    start: usize,
    fields: &[FileField],
) -> Result<(), Flaw>
    requires { start ≤ length bytes.now }
    ensures { Answers result (flaw_of (Fields rule start fields.now) bytes.now) }
{
    match first_wrong(bytes, start, fields) {
        None => Ok(()),
        Some(place) => Err(Flaw {
            rule,
            place: place as u64,
        }),
    }
}

/// The rule is broken at `place` unless the field stands at `at`.
#[tactic(auto, unfolding(crate::specs::Flaws::flaw_of))]
pub fn check_told(
    bytes: &[u8],
    rule: ImageRule,
    place: u64,
    at: usize,
    field: FileField,
) -> Result<(), Flaw>
    requires { at ≤ length bytes.now }
    ensures { Answers result (flaw_of (Told rule place at field) bytes.now) }
{
    match first_wrong(bytes, at, &[field]) {
        None => Ok(()),
        Some(_) => Err(Flaw { rule, place }),
    }
}

/// The rule is broken at the first byte from `low` up to `high` that isn't zero.
#[tactic(auto, unfolding(crate::specs::Flaws::flaw_of))]
pub fn check_zeros(bytes: &[u8], rule: ImageRule, low: usize, high: usize) -> Result<(), Flaw>
    requires order { low ≤ high }
    requires inside { high ≤ length bytes.now }
    ensures { Answers result (flaw_of (Zeros rule low high) bytes.now) }
{
    match first_nonzero(bytes, low, high) {
        None => Ok(()),
        Some(place) => Err(Flaw {
            rule,
            place: place as u64,
        }),
    }
}

#[cfg(test)]
mod tests {
    use super::{Flaw, check, check_fields, check_told, check_zeros};
    use crate::field::{FileField, all_fit, put_fields};
    use pa_num::ImageRule;
    use std::test::Fail;

    #[test]
    fn tells_the_first_wrong_field(rt: HostRuntime) -> Result<(), Fail> {
        let fields = [
            FileField::four(0xfeed_facf),
            FileField::two(7),
            FileField::eight(0),
            FileField::sixteen(0x54_5845_545f_5f),
        ];
        assert!(rt; all_fit(&fields));
        let mut bytes = vec![in rt.alloc(); 1u8]?;
        put_fields(&mut bytes, &fields)?;
        let start = [1, 0xcf, 0xfa, 0xed, 0xfe, 7, 0, 0, 0];
        assert_eq!(rt; bytes.len(), 31);
        assert_eq!(rt; &bytes[..9], start.as_slice());
        assert_eq!(rt; &bytes[15..22], b"__TEXT\0".as_slice());
        assert_eq!(rt; check_fields(&bytes, ImageRule::H3, 1, &fields), Ok(()));
        let cut = check_fields(&bytes[..30], ImageRule::H3, 1, &fields);
        assert_eq!(rt;
            cut,
            Err(Flaw {
                rule: ImageRule::H3,
                place: 15
            })
        );
        let refused = [fields[0], fields[1].only_if(false)];
        let never = check_fields(&bytes, ImageRule::H3, 1, &refused);
        assert_eq!(rt;
            never,
            Err(Flaw {
                rule: ImageRule::H3,
                place: 5
            })
        );
        Ok(())
    }

    #[test]
    fn tells_the_place_that_it_is_given(rt: HostRuntime) {
        let bytes = [0; 12];
        let four = FileField::four(4);
        let told = check_told(&bytes, ImageRule::H2, 3, 8, four);
        assert_eq!(rt;
            told,
            Err(Flaw {
                rule: ImageRule::H2,
                place: 3
            })
        );
        let held = check(&bytes, ImageRule::F1, 9, false);
        assert_eq!(rt;
            held,
            Err(Flaw {
                rule: ImageRule::F1,
                place: 9
            })
        );
        assert!(rt; !all_fit(&[FileField::two(0x1_0000)]));
    }

    #[test]
    fn tells_the_first_byte_that_is_not_zero(rt: HostRuntime) {
        let mut bytes = [0; 30];
        bytes[2] = 1;
        bytes[20] = 1;
        bytes[22] = 1;
        let found = check_zeros(&bytes, ImageRule::H3, 3, 30);
        assert_eq!(rt;
            found,
            Err(Flaw {
                rule: ImageRule::H3,
                place: 20
            })
        );
        assert_eq!(rt; check_zeros(&bytes, ImageRule::H3, 3, 20), Ok(()));
    }
}
