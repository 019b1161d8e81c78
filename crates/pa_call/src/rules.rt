//! Rules by their numbers.

ghost use Rattle.std.specs.Prelude.{◌≡◌, Some};
ghost use Rattle.pa_call.specs.Passing as spec;
ghost use Rattle.pa_scope.specs.Answers as answers;

use pa_scope::TypeRule;

/// The number of a rule.
fn rule_number(rule: TypeRule) -> u8
    ensures { result ≡ answers.rule_number rule }
{
    rule as u8 + 1
}

/// Of two rules that one construct breaks, the first by number.
pub(crate) fn first_rule_of(rule: TypeRule, other: TypeRule) -> TypeRule
    ensures { result ≡ spec.first_rule_of rule other }
{
    if rule_number(other) < rule_number(rule) {
        other
    } else {
        rule
    }
}

/// One more rule that a construct breaks.
pub(crate) fn with_rule(before: Option<TypeRule>, rule: TypeRule) -> TypeRule
    ensures { Some result ≡ answers.first_of_two before (Some rule) }
{
    match before {
        Some(before) => first_rule_of(before, rule),
        None => rule,
    }
}
