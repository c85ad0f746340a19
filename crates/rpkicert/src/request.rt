//! What the words ask for.

ghost use Rattle.std.specs.Prelude.{◌≡◌, map, codes, IfOk, false, option_map, string_bytes};
ghost use Rattle.clap.specs.Words.{all_of, app_of, first_of, rule_of};
ghost use Rattle.rpkicert.specs.Request.{flag, lettered, valued, files_rule, command_app, matched, is_given};
ghost use Rattle.rpkicert.specs.Request.{form_of, inspected, named_inspection, some_files, request_of, with_files};
ghost use Rattle.rpkicert.specs.Request.{named_list};
ghost use Rattle.rpkicert.specs.RequestView.{asked_of, rows_in};

use crate::choice::{Choice, choice_of};
use crate::profile::Inspection;
use clap::error::ErrorKind;
use clap::{Arg, ArgAction, ArgMatches, Command};
use rpki_fields::Form;
use std::alloc::{AllocError, Global};

/// What the words ask for of files.
#[derive(Clone, Copy)]
pub struct Request<'m, 'a, 'f> {
    /// How objects are printed.
    pub form: Form,
    /// Whether only a verdict is printed.
    pub check: bool,
    /// Whether of a folder each file in it is printed.
    pub recursive: bool,
    /// How certificates are checked against a profile, if they are.
    pub inspection: Option<Inspection>,
    /// The name of the file of the issuer.
    pub issuer: Option<&'a str>,
    /// The name of the file of the issuer's revocation list.
    pub list: Option<&'a str>,
    /// The text of the moment.
    pub moment: Option<&'a str>,
    /// The names of the files.
    pub files: &'m [&'f str],
}

/// The flag of this name.
fn flag<'a>(alloc: Global, name: &'a str) -> Arg<'a>
    ensures rule { rule_of result ≡ flag name.entry.now }
    ensures local { result.global ≡ false }
{
    Arg::new(alloc, name).long(name).action(ArgAction::SetTrue)
}

/// The flag of this name, which has this letter too.
fn lettered<'a>(alloc: Global, letter: char, name: &'a str) -> Arg<'a>
    ensures rule { rule_of result ≡ lettered letter name.entry.now }
    ensures local { result.global ≡ false }
{
    Arg::new(alloc, name)
        .short(letter)
        .long(name)
        .action(ArgAction::SetTrue)
}

/// The option of this name, which takes a value.
fn valued<'a>(alloc: Global, name: &'a str) -> Arg<'a>
    ensures rule { rule_of result ≡ valued name.entry.now }
    ensures local { result.global ≡ false }
{
    Arg::new(alloc, name).long(name)
}

/// The names of files.
fn files_rule<'a>(alloc: Global) -> Arg<'a>
    ensures rule { rule_of result ≡ files_rule }
    ensures local { result.global ≡ false }
{
    Arg::new(alloc, "FILE").action(ArgAction::Append)
}

/// What the program takes.
fn command<'a>(alloc: Global) -> Result<Command<'a>, AllocError>
    ensures { IfOk result (λ c. app_of c ≡ command_app) }
{
    Command::new(alloc, "rpkicert")
        .no_binary_name(true)
        .disable_help_flag(true)
        .arg(lettered(alloc, 'h', "help"))?
        .arg(flag(alloc, "version"))?
        .arg(flag(alloc, "json"))?
        .arg(flag(alloc, "check"))?
        .arg(flag(alloc, "lax"))?
        .arg(lettered(alloc, 'r', "recursive"))?
        .arg(valued(alloc, "profile"))?
        .arg(valued(alloc, "issuer"))?
        .arg(valued(alloc, "crl"))?
        .arg(valued(alloc, "at"))?
        .arg(files_rule(alloc))
}

/// What is matched in the words. None if they are not as the program takes them.
///
/// Returns `AllocError` if allocation fails.
pub fn matched<'a>(alloc: Global, words: &'a [String]) -> Result<Option<ArgMatches<'a>>, AllocError>
    ensures { IfOk result (λ o. option_map rows_in o ≡ matched (map string_bytes words.entry.now)) }
{
    let command = command(alloc)?;
    match command.try_get_matches_from(words) {
        Ok(matches) => Ok(Some(matches)),
        Err(e) => match e.kind() {
            ErrorKind::OutOfMemory => Err(AllocError),
            _ => Ok(None),
        },
    }
}

/// Whether the flag of this name was given.
pub fn is_given(matches: &ArgMatches<'_>, name: &str) -> bool
    ensures { result ≡ is_given name.now (rows_in matches.now) }
{
    match matches.get_str(name) {
        Some(value) => value == "true",
        None => false,
    }
}

/// As lines of text, or as JSON.
fn form_of(json: bool) -> Form
    ensures { result ≡ form_of json }
{
    if json { Form::Json } else { Form::Text }
}

/// How a certificate is checked against the profile of this choice.
fn inspected(lax: bool, choice: Choice) -> Option<Inspection>
    ensures { result ≡ inspected lax choice }
{
    Some(Inspection {
        choice,
        strict: !lax,
    })
}

/// How a certificate is checked against the profile of this name, if one is named; for a verdict, else against the one
/// of what it says that it is. None if there is no profile of that name, or there is none that names are not to be
/// checked against.
fn named_inspection(check: bool, lax: bool, name: Option<&str>) -> Option<Option<Inspection>>
    ensures { result ≡ named_inspection check lax (option_map (λ name. name.now) name.entry) }
{
    match name {
        Some(name) => match choice_of(name.as_bytes()) {
            Some(choice) => Some(inspected(lax, choice)),
            None => None,
        },
        None => {
            if check {
                return Some(inspected(lax, Choice::Auto));
            }
            if lax {
                return None;
            }
            Some(None)
        }
    }
}

/// The name of the issuer's revocation list, if one is named. None if one is, and no issuer.
fn named_list<'a>(issuer: Option<&str>, list: Option<&'a str>) -> Option<Option<&'a str>>
    ensures { option_map (λ list. option_map (λ name. name.now) list) result
        ≡ named_list (option_map (λ name. name.now) issuer.entry) (option_map (λ name. name.now) list.entry) }
{
    match list {
        None => Some(None),
        Some(name) => match issuer {
            Some(_) => Some(Some(name)),
            None => None,
        },
    }
}

/// These files. None if there are none.
fn some_files<'m, 'a>(files: Option<&'m [&'a str]>) -> Option<&'m [&'a str]>
    ensures { option_map (λ files. map (λ file. file.now) files.now) result
        ≡ some_files (option_map (λ files. map (λ file. file.now) files.now) files.entry) }
{
    match files {
        Some([]) | None => None,
        Some(files) => Some(files),
    }
}

impl<'m, 'a> Request<'m, 'a, 'a> {
    /// What is asked for of files: how objects are printed, whether those in folders are, a profile, an issuer, its
    /// revocation list, and a moment, perhaps, and the files.
    /// None if there are none, or what belongs to a profile is asked for without one and without a verdict, or the list
    /// without an issuer.
    pub fn of(matches: &'m ArgMatches<'a>) -> Option<Request<'m, 'a, 'a>>
        ensures { option_map asked_of result ≡ request_of (rows_in matches.entry.now) }
    {
        let check = is_given(matches, "check");
        let lax = is_given(matches, "lax");
        let inspection = named_inspection(check, lax, matches.get_str("profile"))?;
        let list = named_list(matches.get_str("issuer"), matches.get_str("crl"))?;
        let files = some_files(matches.get_raw("FILE"))?;
        Some(Request {
            form: form_of(is_given(matches, "json")),
            check,
            recursive: is_given(matches, "recursive"),
            inspection,
            issuer: matches.get_str("issuer"),
            list,
            moment: matches.get_str("at"),
            files,
        })
    }
}

/// What is asked for, of these files.
pub fn with_files<'m, 'a, 'f>(
    request: &Request<'_, 'a, '_>,
    files: &'m [&'f str],
) -> Request<'m, 'a, 'f>
    ensures { asked_of result ≡ with_files (asked_of request.now) (map (λ file. file.now) files.entry.now) }
{
    Request {
        form: request.form,
        check: request.check,
        recursive: request.recursive,
        inspection: request.inspection,
        issuer: request.issuer,
        list: request.list,
        moment: request.moment,
        files,
    }
}
