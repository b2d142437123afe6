// The value of each option.
ghost use Rattle.std.specs.Prelude.{◌≡◌, ◌≢◌, ◌∷◌, ◌++◌, [], List, IfNone, IfSome, map, string_bytes};
ghost use Rattle.meek_words.specs.Numerals.{Word};
ghost use Rattle.check_words.specs.Asks.{Asks};
ghost use Rattle.check_words.specs.Options.{flag_of};
ghost use Rattle.check_words.specs.Pairs.{only_at};
ghost use Rattle.check_words.specs.Values.{AreValuesOf, values_in};
ghost use Rattle.check_words.specs.declared.asked.Asked.{Asked};
ghost use Rattle.check_words.specs.declared.check_option.CheckOption.{CheckOption};

use crate::check_option::CheckOption;

/// The value of each option, still as text.
#[derive(Clone, Copy)]
pub(crate) struct Values<'a> {
    pub(crate) lots: Option<&'a str>,
    pub(crate) rule: Option<&'a str>,
    pub(crate) places: Option<&'a str>,
    pub(crate) omega: Option<&'a str>,
}

/// The values that words say, none where they are no pairs or an option comes twice.
#[tactic(auto, using(crate::proofs::PairLemmas::read_more, crate::proofs::PairLemmas::no_pair, crate::proofs::PairLemmas::stands_twice))]
pub(crate) fn values_of<'a>(words: &'a [String]) -> Option<Values<'a>>
    ensures found { IfSome result (AreValuesOf (map string_bytes words.entry.now)) }
    ensures none { IfNone result ((asked : Asked) → ¬ (Asks (map string_bytes words.entry.now) asked)) }
{
    let mut values = Values {
        lots: None,
        rule: None,
        places: None,
        omega: None,
    };
    let mut rest = words;
    while !rest.is_empty() {
        let Some((option, value, behind)) = first_pair(rest) else {
            return None;
        };
        let Some(more) = with(values, option, value) else {
            return None;
        };
        values = more;
        rest = behind;
    }
    Some(values)
}

/// The first option, its value, and the words after them.
fn first_pair(words: &[String]) -> Option<(CheckOption, &str, &[String])>
    ensures cut { IfSome result (λ cut.
        map string_bytes words.now ≡ flag_of cut.0 ∷ cut.1.now ∷ map string_bytes cut.2.now) }
    ensures none { IfNone result ((option : CheckOption) (value : Word) (rest : List Word)
        → map string_bytes words.now ≢ flag_of option ∷ value ∷ rest) }
{
    let (flag, behind) = words.split_first()?;
    let (value, rest) = behind.split_first()?;
    let option = CheckOption::from_flag(flag.as_str())?;
    Some((option, value.as_str(), rest))
}

/// The values with that of an option more, none where the option has one already.
fn with<'a>(values: Values<'a>, option: CheckOption, value: &'a str) -> Option<Values<'a>>
    ensures more { IfSome result (λ new. (other : CheckOption)
        → values_in new other ≡ values_in values.entry other ++ only_at option value.now other) }
    ensures stood { IfNone result (values_in values.entry option ≢ []) }
{
    let stands = match option {
        CheckOption::Lots => values.lots,
        CheckOption::Rule => values.rule,
        CheckOption::Places => values.places,
        CheckOption::Omega => values.omega,
    };
    if stands.is_some() {
        return None;
    }
    Some(put(values, option, value))
}

/// The values with this one in the place of an option's.
fn put<'a>(values: Values<'a>, option: CheckOption, value: &'a str) -> Values<'a>
    requires { values_in values option ≡ [] }
    ensures { (other : CheckOption)
        → values_in result other ≡ values_in values.entry other ++ only_at option value.now other }
{
    let mut new = values;
    match option {
        CheckOption::Lots => new.lots = Some(value),
        CheckOption::Rule => new.rule = Some(value),
        CheckOption::Places => new.places = Some(value),
        CheckOption::Omega => new.omega = Some(value),
    }
    new
}
