//! The texts and the numbers that a parse found.

ghost use Rattle.std.specs.Prelude.{◌≡◌, ◌≤◌, option_map, IfSome};
ghost use Rattle.orca_words.specs.Requests.{keys_named, number_in, number_set, option_full, option_number, option_text, option_views, positional_number, positional_text, views_named};
ghost use Rattle.orca_words.specs.RequestIn.{rows_in, text_in};

use clap::ArgMatches;
use orca_base::number;

/// The text of an option, where the words set it.
pub(crate) fn option_text<'a>(found: &ArgMatches<'a>, name: &str) -> Option<&'a str>
    ensures { text_in result ≡ option_text (rows_in found.now) name.now }
{
    found.get_str(name)
}

/// The text of a positional. `clap` accepts no words without it, so it is never left out.
pub(crate) fn positional_text<'a>(found: &ArgMatches<'a>, name: &str) -> &'a str
    ensures { result.now ≡ positional_text (rows_in found.now) name.now }
{
    option_text(found, name).unwrap_or("")
}

/// The number that an option sets, or its default where the words do not set it. None stands for a
/// text that is not 1 to 10 digits, or a number outside its range.
pub(crate) fn option_number(
    found: &ArgMatches,
    name: &str,
    default: u32,
    least: u32,
    most: u32,
) -> Option<u32>
    requires low { least ≤ default }
    requires high { default ≤ most }
    ensures value { result ≡ option_number (rows_in found.now) name.now default least most }
    ensures within { IfSome result (λ number. (least ≤ number) × (number ≤ most)) }
{
    match option_text(found, name) {
        Some(text) => number_in(text, least, most),
        None => Some(default),
    }
}

/// The number that an option sets, where the words set it. None stands for a text that is not 1 to 10
/// digits, or a number outside its range.
#[tactic(auto, unfolding(crate::specs::Requests::number_set))]
pub(crate) fn number_set(
    found: &ArgMatches,
    name: &str,
    least: u32,
    most: u32,
) -> Option<Option<u32>>
    ensures value { result ≡ number_set (rows_in found.now) name.now least most }
    ensures within { IfSome result (λ set. IfSome set (λ number.
        (least ≤ number) × (number ≤ most))) }
{
    match option_text(found, name) {
        Some(text) => Some(Some(number_in(text, least, most)?)),
        None => Some(None),
    }
}

/// The same of an option whose numbers are small.
pub(crate) fn small_option(
    found: &ArgMatches,
    name: &str,
    default: u16,
    least: u16,
    most: u16,
) -> Option<u16>
    requires low { least ≤ default }
    requires high { default ≤ most }
    ensures value { result ≡ option_number (rows_in found.now) name.now default least most }
    ensures within { IfSome result (λ number. (least ≤ number) × (number ≤ most)) }
{
    let number = option_number(found, name, default.into(), least.into(), most.into())?;
    Some(number as u16)
}

/// Whether the words ask for the full keys: plain ones where they do not say. None stands for a text that
/// names no keys.
#[tactic(auto, unfolding(crate::specs::Requests::option_full))]
pub(crate) fn option_full(found: &ArgMatches) -> Option<bool>
    ensures { result ≡ option_full (rows_in found.now) }
{
    match option_text(found, "keys") {
        Some(text) => keys_named(text),
        None => Some(false),
    }
}

/// Whether these are the full keys or the plain ones, by their name.
fn keys_named(text: &str) -> Option<bool>
    ensures { result ≡ keys_named text.now }
{
    match text {
        "full" => Some(true),
        "plain" => Some(false),
        _ => None,
    }
}

/// Whether the words ask for a picture for each hand: for the first one's alone where they do not say. None
/// stands for another text.
#[tactic(auto, unfolding(crate::specs::Requests::option_views))]
pub(crate) fn option_views(found: &ArgMatches) -> Option<bool>
    ensures { result ≡ option_views (rows_in found.now) }
{
    match option_text(found, "views") {
        Some(text) => views_named(text),
        None => Some(false),
    }
}

/// Whether these are the pictures of all hands or that of one, by their name.
fn views_named(text: &str) -> Option<bool>
    ensures { result ≡ views_named text.now }
{
    match text {
        "all" => Some(true),
        "one" => Some(false),
        _ => None,
    }
}

/// The number of a positional, where it lies in this range.
pub(crate) fn positional_number(
    found: &ArgMatches,
    name: &str,
    least: u32,
    most: u32,
) -> Option<u32>
    ensures value { result ≡ positional_number (rows_in found.now) name.now least most }
    ensures within { IfSome result (λ number. (least ≤ number) × (number ≤ most)) }
{
    number_in(positional_text(found, name), least, most)
}

/// The value of 1 to 10 decimal digits, where it lies in this range.
#[tactic(auto, unfolding(crate::specs::Requests::number_in))]
fn number_in(text: &str, least: u32, most: u32) -> Option<u32>
    ensures value { result ≡ number_in least most text.now }
    ensures within { IfSome result (λ number. (least ≤ number) × (number ≤ most)) }
{
    let number = number(text)?;
    if number < least || number > most {
        return None;
    }
    Some(number)
}
