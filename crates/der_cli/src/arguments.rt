//! The arguments of a subcommand, as options.
ghost use Rattle.std.specs.Prelude.{◌≡◌, ◌≢◌, IfSome, Some, codes, false, option_map};
ghost use Rattle.clap.specs.Words.{first_of, found_of, rows_of};
ghost use Rattle.der_input.specs.declared.form.Form.{Form};
ghost use Rattle.der_cli.specs.Arguments.{Asks, AsksLimit, AsksPlace, IsNumberOf, IsOffsetIn, IsPlaceNamed, NamesForm};
ghost use Rattle.der_cli.specs.Arguments.{action_word, der_if, form_word, has_flag, rules_asked, strings_asked};
ghost use Rattle.der_cli.specs.Arguments.{task_word};
ghost use Rattle.der_actions.specs.declared.options.Action.{Action};
ghost use Rattle.der_cli.specs.declared.arguments.Task.{Task};

use clap::ArgMatches;
use der_actions::options::{Action, Naming, Options};
use der_actions::place::Place;
use der_elements::Rules;
use der_input::Form;
use der_print::{Limit, Style};

/// What a subcommand does.
#[derive(Clone, Copy)]
pub(crate) enum Task {
    Act(Action),
    Diff,
    Text,
    Octets,
    /// Prints the types of modules of ASN.1.
    Modules,
}

/// The options that the arguments after a subcommand give, except for the type that names elements. The style of lines
/// is that of the terminal, unless an argument changes it.
pub(crate) fn options_of<'a>(
    action: Action,
    matches: &ArgMatches<'a>,
    terminal: Style,
) -> Options<'a>
    ensures { Asks action (rows_of (found_of matches.now)) terminal result }
{
    Options {
        action,
        rules: rules_of(action, matches),
        enters_strings: enters_strings(action, matches),
        form: form_of(matches),
        style: style_of(action, matches, terminal),
        own_names: None,
        naming: Naming::Unnamed,
        place: place_of(matches),
        depth: number_of(matches, "depth"),
        is_json: has_flag(matches, "json"),
        has_octets: has_flag(matches, "octets"),
        is_content: has_flag(matches, "content"),
        is_quiet: has_flag(matches, "quiet"),
        is_strict: has_flag(matches, "strict"),
        present: seconds_of(matches),
        has_several_files: false,
    }
}

/// Whether a flag is given.
pub(crate) fn has_flag(matches: &ArgMatches<'_>, name: &str) -> bool
    ensures { result ≡ has_flag (rows_of (found_of matches.now)) name.now }
{
    matches.get_one::<bool>(name).unwrap_or(false)
}

/// The word of an argument, if it is given.
pub(crate) fn word_of<'a>(matches: &ArgMatches<'a>, name: &str) -> Option<&'a str>
    ensures { option_map (λ s. s.now) result ≡ first_of name.now (rows_of (found_of matches.now)) }
{
    matches.get_str(name)
}

/// The number of an argument, if it is given.
fn number_of(matches: &ArgMatches<'_>, name: &str) -> Option<usize>
    ensures { IsNumberOf (rows_of (found_of matches.now)) name.now result }
{
    matches.get_one::<usize>(name)
}

/// The current time that is given.
fn seconds_of(matches: &ArgMatches<'_>) -> Option<u64>
    ensures { IsNumberOf (rows_of (found_of matches.now)) (codes "now") result }
{
    matches.get_one::<u64>("now")
}

/// The rules: DER for a check and BER otherwise, unless an argument changes them.
fn rules_of(action: Action, matches: &ArgMatches<'_>) -> Rules
    ensures { result ≡ rules_asked action (rows_of (found_of matches.now)) }
{
    match action {
        Action::Check => der_if(!has_flag(matches, "ber")),
        Action::Tree | Action::Json | Action::Get => der_if(has_flag(matches, "der")),
        Action::Canon | Action::Show => Rules::Ber,
    }
}

/// DER if it is asked for, else BER.
fn der_if(is_asked: bool) -> Rules
    ensures { result ≡ der_if is_asked }
{
    if is_asked { Rules::Der } else { Rules::Ber }
}

/// Whether the elements inside strings are visited.
fn enters_strings(action: Action, matches: &ArgMatches<'_>) -> bool
    ensures { result ≡ strings_asked action (rows_of (found_of matches.now)) }
{
    match action {
        Action::Tree | Action::Json => !has_flag(matches, "no-inside"),
        Action::Get => true,
        Action::Check | Action::Canon | Action::Show => false,
    }
}

/// The style of lines. Only those of a tree are cut otherwise than the terminal says, or coloured.
fn style_of(action: Action, matches: &ArgMatches<'_>, terminal: Style) -> Style
    ensures tree { action ≡ Action.Tree → AsksLimit (rows_of (found_of matches.now)) terminal.limit result.limit
        × (result.colours ≡ terminal.colours) }
    ensures others { action ≢ Action.Tree → result ≡ record terminal { colours = false } }
{
    if action != Action::Tree {
        return Style {
            colours: false,
            ..terminal
        };
    }
    Style {
        limit: limit_of(matches, terminal.limit),
        ..terminal
    }
}

/// How much of a line is printed. A width of 0 is no limit.
fn limit_of(matches: &ArgMatches<'_>, terminal: Limit) -> Limit
    ensures { AsksLimit (rows_of (found_of matches.now)) terminal result }
{
    if has_flag(matches, "full") {
        return Limit::Whole;
    }
    match number_of(matches, "width") {
        Some(0) => Limit::Whole,
        Some(columns) => Limit::Columns(columns),
        None => terminal,
    }
}

/// The place that the arguments give, if they give one.
fn place_of<'a>(matches: &ArgMatches<'a>) -> Option<Place<'a>>
    ensures { AsksPlace (rows_of (found_of matches.now)) result }
{
    if let Some(word) = word_of(matches, "place") {
        return Some(place_named(word));
    }
    if let Some(path) = word_of(matches, "path") {
        return Some(Place::Path(path));
    }
    match number_of(matches, "offset") {
        Some(offset) => Some(Place::Offset(offset)),
        None => None,
    }
}

/// The place that a word gives: `@` and an offset, or a path.
fn place_named(word: &str) -> Place<'_>
    ensures { IsPlaceNamed word.now result }
{
    match offset_in(word) {
        Some(offset) => Place::Offset(offset),
        None => Place::Path(word),
    }
}

/// The offset after `@`, if the word has this form.
fn offset_in(word: &str) -> Option<usize>
    ensures { IsOffsetIn word.now result }
{
    match word.strip_prefix('@') {
        Some(digits) => digits.parse::<usize>().ok(),
        None => None,
    }
}

/// The task of a subcommand.
pub(crate) fn task_named(word: &str) -> Task
    ensures { (task : Task) → word.now ≡ task_word task → result ≡ task }
{
    match word {
        "diff" => Task::Diff,
        "text" => Task::Text,
        "octets" => Task::Octets,
        "asn1" => Task::Modules,
        _ => Task::Act(action_named(word)),
    }
}

/// The action of a subcommand.
fn action_named(word: &str) -> Action
    ensures { (action : Action) → word.now ≡ action_word action → result ≡ action }
{
    match word {
        "check" => Action::Check,
        "canon" => Action::Canon,
        "json" => Action::Json,
        "get" => Action::Get,
        "show" => Action::Show,
        _ => Action::Tree,
    }
}

/// The form that the arguments give, if they give one.
pub(crate) fn form_of(matches: &ArgMatches<'_>) -> Option<Form>
    ensures { NamesForm (first_of (codes "from") (rows_of (found_of matches.now))) result }
{
    match word_of(matches, "from") {
        Some(word) => form_named(word),
        None => None,
    }
}

/// The form with this name.
fn form_named(word: &str) -> Option<Form>
    ensures found { (form : Form) → word.now ≡ form_word form → result ≡ Some form }
    ensures only { IfSome result (λ form. word.now ≡ form_word form) }
{
    match word {
        "der" => Some(Form::Der),
        "pem" => Some(Form::Pem),
        "hex" => Some(Form::Hex),
        "base64" => Some(Form::Base64),
        _ => None,
    }
}
