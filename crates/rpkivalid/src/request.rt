//! What the words ask for.

ghost use Rattle.std.specs.Prelude.{◌≡◌, bytes_eq, map, codes, IfOk, false, option_map, string_bytes};
ghost use Rattle.clap.specs.Words.{all_of, app_of, first_of, rule_of};
ghost use Rattle.rpkivalid.specs.Request.{flag, help_flag, valued, listed, command_app, matched, is_given};
ghost use Rattle.rpkivalid.specs.Request.{files_or_none, form_named, form_of, some_files, strictness_of, request_of};
ghost use Rattle.rpkivalid.specs.RequestView.{asked_of, rows_in};

use clap::error::ErrorKind;
use clap::{Arg, ArgAction, ArgMatches, Command};
use rpki_objects::Strictness;
use rpki_payloads::Form;
use std::alloc::{AllocError, Global};

/// What the words ask for.
#[derive(Clone, Copy)]
pub struct Request<'m, 'a> {
    /// How payloads are written.
    pub form: Form,
    /// Which rules are asked strictly.
    pub strictness: Strictness,
    /// The folder of the copy of the repository.
    pub cache: &'a str,
    /// The text of the moment.
    pub moment: Option<&'a str>,
    /// The name of the file to write.
    pub output: Option<&'a str>,
    /// The text of the number of authorities that a path has at most below a trust anchor.
    pub depth: Option<&'a str>,
    /// The names of the files of local exceptions.
    pub exceptions: &'m [&'a str],
    /// The name of the file of metrics to write.
    pub metrics: Option<&'a str>,
    /// What is to be explained: a URI, or a prefix.
    pub explain: Option<&'a str>,
    /// The AS number of a route that is to be explained.
    pub number: Option<&'a str>,
    /// The name of the file that another validator wrote.
    pub compare: Option<&'a str>,
    /// The text of the least number of route origins.
    pub least: Option<&'a str>,
    /// The names of the files of locators.
    pub locators: &'m [&'a str],
}

/// The flag of this name.
fn flag<'a>(alloc: Global, name: &'a str) -> Arg<'a>
    ensures rule { rule_of result ≡ flag name.entry.now }
    ensures local { result.global ≡ false }
{
    Arg::new(alloc, name).long(name).action(ArgAction::SetTrue)
}

/// The flag for help, which has a letter too.
fn help_flag<'a>(alloc: Global) -> Arg<'a>
    ensures rule { rule_of result ≡ help_flag }
    ensures local { result.global ≡ false }
{
    Arg::new(alloc, "help")
        .short('h')
        .long("help")
        .action(ArgAction::SetTrue)
}

/// The option of this name, which takes a value.
fn valued<'a>(alloc: Global, name: &'a str) -> Arg<'a>
    ensures rule { rule_of result ≡ valued name.entry.now }
    ensures local { result.global ≡ false }
{
    Arg::new(alloc, name).long(name)
}

/// The option of this name, which takes one value or more each time that it is given.
fn listed<'a>(alloc: Global, name: &'a str) -> Arg<'a>
    ensures rule { rule_of result ≡ listed name.entry.now }
    ensures local { result.global ≡ false }
{
    Arg::new(alloc, name)
        .long(name)
        .action(ArgAction::Append)
        .num_args(1..)
}

/// What the program takes.
fn command<'a>(alloc: Global) -> Result<Command<'a>, AllocError>
    ensures { IfOk result (λ c. app_of c ≡ command_app) }
{
    Command::new(alloc, "rpkivalid")
        .no_binary_name(true)
        .disable_help_flag(true)
        .arg(help_flag(alloc))?
        .arg(flag(alloc, "version"))?
        .arg(flag(alloc, "strict"))?
        .arg(flag(alloc, "quiet"))?
        .arg(valued(alloc, "cache"))?
        .arg(valued(alloc, "at"))?
        .arg(valued(alloc, "form"))?
        .arg(valued(alloc, "output"))?
        .arg(valued(alloc, "log"))?
        .arg(valued(alloc, "depth"))?
        .arg(listed(alloc, "exceptions"))?
        .arg(valued(alloc, "metrics"))?
        .arg(valued(alloc, "explain"))?
        .arg(valued(alloc, "as"))?
        .arg(valued(alloc, "compare"))?
        .arg(valued(alloc, "least"))?
        .arg(listed(alloc, "tal"))
}

/// What is matched in the words. None if they are not as the program takes them.
///
/// Returns `AllocError` if allocation fails.
pub fn matched<'a>(alloc: Global, words: &'a [String]) -> Result<Option<ArgMatches<'a>>, AllocError>
    ensures { IfOk result (λ o. option_map rows_in o ≡ matched (map string_bytes words.entry.now)) }
{
    let command = command(alloc)?;
    match command.try_get_matches_from(words) {
        Ok(matches) => Ok(Some(matches)),
        Err(e) => match e.kind() {
            ErrorKind::OutOfMemory => Err(AllocError),
            _ => Ok(None),
        },
    }
}

/// Whether the flag of this name was given.
pub fn is_given(matches: &ArgMatches<'_>, name: &str) -> bool
    ensures { result ≡ is_given name.now (rows_in matches.now) }
{
    match matches.get_str(name) {
        Some(value) => value == "true",
        None => false,
    }
}

/// Whether the two texts are the same.
fn is(word: &[u8], text: &[u8]) -> bool
    ensures { result ≡ bytes_eq word.now text.now }
{
    word == text
}

/// The form of this name. None if there is no such form.
pub fn form_named(name: &[u8]) -> Option<Form>
    ensures { result ≡ form_named name.now }
{
    if is(name, b"csv") {
        return Some(Form::Csv);
    }
    if is(name, b"json") {
        return Some(Form::Json);
    }
    if is(name, b"stayrtr") {
        return Some(Form::StayRtr);
    }
    if is(name, b"openbgpd") {
        return Some(Form::OpenBgpd);
    }
    if is(name, b"openbgpd-origins") {
        return Some(Form::OpenBgpdOrigins);
    }
    if is(name, b"bird") {
        return Some(Form::Bird);
    }
    if is(name, b"rpki-client") {
        return Some(Form::RpkiClient);
    }
    None
}

/// The form of this name; without a name it is csv. None if there is no such form.
fn form_of(name: Option<&str>) -> Option<Form>
    ensures { result ≡ form_of (option_map (λ name. name.now) name.entry) }
{
    match name {
        None => Some(Form::Csv),
        Some(name) => form_named(name.as_bytes()),
    }
}

/// These files. None if there are none.
fn some_files<'m, 'a>(files: Option<&'m [&'a str]>) -> Option<&'m [&'a str]>
    ensures { option_map (λ files. map (λ file. file.now) files.now) result
        ≡ some_files (option_map (λ files. map (λ file. file.now) files.now) files.entry) }
{
    match files {
        Some([]) | None => None,
        Some(files) => Some(files),
    }
}

/// These files, or none.
fn files_or_none<'m, 'a>(files: Option<&'m [&'a str]>) -> &'m [&'a str]
    ensures { map (λ file. file.now) result.now
        ≡ files_or_none (option_map (λ files. map (λ file. file.now) files.now) files.entry) }
{
    match files {
        Some(files) => files,
        None => &[],
    }
}

/// All rules are asked strictly, or none.
fn strictness_of(strict: bool) -> Strictness
    ensures { result ≡ strictness_of strict }
{
    if strict {
        return Strictness::all();
    }
    Strictness::default()
}

impl<'m, 'a> Request<'m, 'a> {
    /// What is asked for: a form, the folder of a copy, and locators; and a moment, a depth, files, local exceptions,
    /// what is to be explained or compared, perhaps. None if there is no folder, no locator, or no such form.
    pub fn of(matches: &'m ArgMatches<'a>) -> Option<Request<'m, 'a>>
        ensures { option_map asked_of result ≡ request_of (rows_in matches.entry.now) }
    {
        let form = form_of(matches.get_str("form"))?;
        let cache = matches.get_str("cache")?;
        let locators = some_files(matches.get_raw("tal"))?;
        Some(Request {
            form,
            strictness: strictness_of(is_given(matches, "strict")),
            cache,
            moment: matches.get_str("at"),
            output: matches.get_str("output"),
            depth: matches.get_str("depth"),
            exceptions: files_or_none(matches.get_raw("exceptions")),
            metrics: matches.get_str("metrics"),
            explain: matches.get_str("explain"),
            number: matches.get_str("as"),
            compare: matches.get_str("compare"),
            least: matches.get_str("least"),
            locators,
        })
    }
}
