//! The numbers of a level's choices.
ghost use Rattle.std.specs.Prelude.{◌≡◌, pos, map, option_map, nat_abs};
ghost use Rattle.serde_json.specs.View.{view};
ghost use Rattle.level_choices.specs.Choices.{all_choices, filled, shown};
ghost use Rattle.elk_options.specs.declared.names.OptionName.TheVariants as name;
ghost use Rattle.elk_options.specs.Values.{whole_within};
ghost use Rattle.elk_options.specs.Table.{to_number, word_number};
ghost use Rattle.elk_options.specs.Reading.{given, number_of, Reads, ReadsAll};

use crate::names::{OptionName, asked_of};
use crate::options::BadValue;
use crate::readers::settled;
use crate::values::{is_word, whole_in};
use level_choices::{Choice, Form, all_choices, form_of};
use serde_json::Value;

// The number of the first of these words that the text is.
fn word_number(words: &[(&str, u32)], text: &str) -> Option<u32>
    ensures { result ≡ word_number (map (λ word. (word.0.now, word.1)) words.now) text.now }
{
    for word in words {
        if is_word(text, word.0) {
            return Some(word.1);
        }
    }
    None
}

// The whole number of the value, or of its text, within the bounds.
fn whole_number(value: &Value, low: u32, high: u32) -> Option<u32>
    ensures { result ≡ option_map nat_abs (whole_within (pos low) (pos high) (view value.now)) }
{
    let number = whole_in(value, low as i64, high as i64)?;
    Some(number as u32)
}

// The number that the value is, of a choice with such values.
fn number_from(form: Form, value: &Value) -> Option<u32>
    ensures { result ≡ to_number (shown form) (view value.now) }
{
    match form {
        Form::Words(words) => word_number(words, value.as_str()?),
        Form::Whole { low, high } => whole_number(value, low, high),
    }
}

// The number of a choice, or 0 where it is not asked.
#[tactic(auto, unfolding(crate::specs::Reading::is_bad, crate::specs::Reading::number_of))]
fn number(options: Option<&Value>, choice: Choice) -> Result<u32, BadValue>
    ensures { Reads (name.Choice choice) (given options.entry) (number_of (given options.entry) choice) result }
{
    let asked = asked_of(options, OptionName::Choice(choice));
    let form = form_of(choice);
    let value = asked.and_then(|v| number_from(form, v));
    settled(asked.is_some(), value, 0, OptionName::Choice(choice))
}

// The numbers of all choices, in the order of their table.
pub(crate) fn numbers(options: Option<&Value>) -> Result<[u32; 8], BadValue>
    ensures { ReadsAll (map name.Choice all_choices) (given options.entry) (filled (map (number_of (given options.entry)) all_choices)) result }
{
    let choices = all_choices();
    let mut numbers = [0; 8];
    for place in 0..choices.len() {
        numbers[place] = number(options, choices[place])?;
    }
    Ok(numbers)
}
