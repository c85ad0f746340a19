//! A run in memory: words and files in, payloads out.

ghost use Rattle.std.specs.Prelude.{◌≡◌, ◌++◌, [], true, Some, None, IfOk, IfErr, IfSome, IfNone};
ghost use Rattle.std.specs.List.{flat_map};
ghost use Rattle.std.specs.Option.{option_map};
ghost use Rattle.rpkivalid.specs.ComplaintView.{complaint_of};
ghost use Rattle.rpkivalid.specs.Moment.{IsDepth, IsMomentOf, IsNoDepth};
ghost use Rattle.rpkivalid.specs.Question.{IsQuestion};
ghost use Rattle.rpkivalid.specs.Reported.{count_line};
ghost use Rattle.rpkivalid.specs.RequestView.{asked_of, Asks, AskHelp, AskVersion, AskRun, AskNothing};
ghost use Rattle.rpkivalid.specs.RequestView.{WantsHelp, WantsNothing, WantsVersion};
ghost use Rattle.rpkivalid.specs.Run.{status_of, AreMetrics, IsUndated, IsUnlisted, IsWritten};
ghost use Rattle.rpkivalid.specs.RunView.{ComplainsBy, Denies, GivesBy, IsUnwrittenBy, IsWrittenBy, RunsAs, RunsOf};
ghost use Rattle.rpkivalid.specs.RunView.{SaysWhyBy};

use crate::compared::compare;
use crate::complaint::complaint;
use crate::denial::Denial;
use crate::enough::least_of;
use crate::explained::explain;
use crate::found::both;
use crate::moment::moment_at;
use crate::question::{Question, question_of};
use crate::report::push_counts;
use crate::request::{Request, is_given, matched};
use crate::shown::{Shown, shown_under};
use crate::sources::Sources;
use crate::texts::{HELP, NUMBER, VERSION};
use clap::ArgMatches;
use rpki::repository::x509::Time;
use rpki_payloads::{Payloads, metrics_text, vrp_count};
use rpki_rsa::PreparingProvider;
use std::alloc::{AllocError, Global};

/// How many authorities there are at most below a trust anchor; without a word 32. None if the word is no number below
/// 2^32.
fn depth_of(word: Option<&str>) -> Option<u32>
    ensures some { IfSome result (IsDepth (option_map (λ word. word.now) word.entry)) }
    ensures none { IfNone result (IsNoDepth (option_map (λ word. word.now) word.entry)) }
{
    match word {
        Some(word) => match word.parse::<u32>() {
            Ok(depth) => Some(depth),
            Err(_) => None,
        },
        None => Some(32),
    }
}

/// The exit status where all is written: 0, or 1 where a locator has no trust anchor or a file could not be read.
fn status_of(have_anchors: bool, is_read: bool) -> u8
    ensures { result ≡ status_of have_anchors is_read }
{
    if have_anchors && is_read { 0 } else { 1 }
}

/// What a run gives: what it writes, and its exit status.
#[derive(Drop)]
pub struct Ran {
    /// What goes to the output.
    pub text: Vec<u8>,
    /// What goes to the metrics, if they are asked for.
    pub metrics: Vec<u8>,
    /// What goes to standard error.
    pub report: Vec<u8>,
    /// The exit status.
    pub status: u8,
}

/// A text and no other, with the status 0.
fn given(alloc: Global, text: &[u8]) -> Result<Ran, AllocError>
    ensures { IfOk result (GivesBy text.now) }
{
    let text = Vec::from_slice(alloc, text)?;
    Ok(Ran {
        text,
        metrics: Vec::new(alloc),
        report: Vec::new(alloc),
        status: 0,
    })
}

/// What standard error is told, with the status 2, and nothing else.
fn complained(alloc: Global, report: Vec<u8>) -> Ran
    ensures { ComplainsBy report.items result }
{
    Ran {
        text: Vec::new(alloc),
        metrics: Vec::new(alloc),
        report,
        status: 2,
    }
}

/// These lines, and why nothing is written.
fn denied(
    alloc: Global,
    denial: Denial,
    request: &Request<'_, '_>,
    report: Vec<u8>,
) -> Result<Ran, AllocError>
    ensures { IfOk result (SaysWhyBy report.items denial request.now) }
{
    let text = denial.text(alloc, request.locators, request.exceptions, request.compare)?;
    let mut report = report;
    report.extend_from_slice(text.as_slice())?;
    Ok(complained(alloc, report))
}

/// The metrics of what is written, made at the clock's moment.
fn metrics_at<S: Sources>(alloc: Global, host: &S, shown: &[Payloads]) -> Result<Vec<u8>, Denial>
    ensures made { IfOk result (λ text. AreMetrics (S.clock host.now) (Some []) shown.now text.items) }
    ensures denied { IfErr result (IsUndated (S.clock host.now)) }
{
    let Some(now) = moment_at(host, None) else {
        return Err(Denial::NoMoment);
    };
    let text = metrics_text(alloc, NUMBER, now, host.seconds(), shown)?;
    Ok(text)
}

/// The metrics of what is written, where a file of them is asked for.
fn metrics_of<S: Sources>(
    alloc: Global,
    host: &S,
    file: Option<&str>,
    shown: &[Payloads],
) -> Result<Vec<u8>, Denial>
    ensures made { IfOk result (λ text. AreMetrics (S.clock host.now) (option_map (λ name. name.now) file.entry)
        shown.now text.items) }
    ensures denied { IfErr result (IsUndated (S.clock host.now)) }
{
    match file {
        Some(_) => metrics_at(alloc, host, shown),
        None => Ok(Vec::new(alloc)),
    }
}

/// The text of the payloads in the form that is asked for, made at the clock's moment. [Denial::TooFew] if there are
/// fewer route origins than are asked for.
fn text_of<S: Sources>(
    alloc: Global,
    request: &Request<'_, '_>,
    host: &S,
    shown: &[Payloads],
) -> Result<Vec<u8>, Denial>
    ensures written { IfOk result (λ text. IsWritten (S.clock host.now) (asked_of request.now) shown.now text.items) }
    ensures denied { IfErr result (IsUnlisted (S.clock host.now) (asked_of request.now) shown.now) }
{
    let Some(least) = least_of(request.least) else {
        return Err(Denial::NoLeast);
    };
    let Some(made) = moment_at(host, None) else {
        return Err(Denial::NoMoment);
    };
    if vrp_count(shown)? < least as usize {
        return Err(Denial::TooFew);
    }
    let text = request.form.text_of(alloc, shown, made)?;
    Ok(text)
}

/// The text of payloads, and their metrics.
#[derive(Drop)]
pub struct Written {
    /// The text.
    pub text: Vec<u8>,
    /// The metrics, if they are asked for.
    pub metrics: Vec<u8>,
}

/// The text and the metrics of what is found. [Denial::NoAnchor] if no locator has a trust anchor.
fn written_of<S: Sources>(
    alloc: Global,
    request: &Request<'_, '_>,
    host: &S,
    shown: &Shown,
) -> Result<Written, Denial>
    ensures anchor { IfOk result (λ _. shown.now.has_anchor ≡ true) }
    ensures written { IfOk result (IsWrittenBy (S.clock host.now) request.now shown.now.payloads.items) }
    ensures denied { IfErr result (IsUnwrittenBy (S.clock host.now) request.now shown.now) }
{
    if !shown.has_anchor {
        return Err(Denial::NoAnchor);
    }
    let payloads = shown.payloads.as_slice();
    let text = text_of(alloc, request, host, payloads)?;
    let metrics = metrics_of(alloc, host, request.metrics, payloads)?;
    Ok(Written { text, metrics })
}

/// What is told of what is found, and then how many payloads there are.
fn counted(alloc: Global, shown: &Shown) -> Result<Vec<u8>, AllocError>
    ensures { IfOk result (λ report. report.items
        ≡ shown.now.report.items ++ flat_map count_line shown.now.payloads.items) }
{
    let mut report = Vec::from_slice(alloc, shown.report.as_slice())?;
    push_counts(&mut report, shown.payloads.as_slice())?;
    Ok(report)
}

/// The payloads with their metrics, or why they are not written; at this moment and to this depth.
fn answer_at<S: Sources, P: PreparingProvider>(
    alloc: Global,
    request: &Request<'_, '_>,
    host: &S,
    crypto: &P,
    at: Time,
    depth: u32,
) -> Result<Ran, Denial>
    requires moment { IsMomentOf (S.clock host.now) (asked_of request.now).moment at }
    requires depth { IsDepth (asked_of request.now).depth depth }
    requires compare { (asked_of request.now).compare ≡ None }
    requires question { IsQuestion (asked_of request.now).explain (asked_of request.now).number None }
    ensures ran { IfOk result (RunsOf P.Provider crypto.now (S.holds host.now) (S.clock host.now) request.now) }
    ensures denied { IfErr result (Denies (S.holds host.now) (S.clock host.now) request.now) }
{
    let shown = shown_under(alloc, request, host, crypto, at, depth)?;
    match written_of(alloc, request, host, &shown) {
        Ok(written) => {
            let report = counted(alloc, &shown)?;
            let status = status_of(shown.have_anchors, host.is_read());
            Ok(Ran {
                text: written.text,
                metrics: written.metrics,
                report,
                status,
            })
        }
        Err(denial) => {
            let ran = denied(alloc, denial, request, shown.report)?;
            Ok(ran)
        }
    }
}

/// The explanation of what is to be explained, at this moment and to this depth.
fn explained_at<S: Sources, P: PreparingProvider>(
    alloc: Global,
    question: &Question,
    request: &Request<'_, '_>,
    host: &S,
    crypto: &P,
    at: Time,
    depth: u32,
) -> Result<Ran, Denial>
    requires moment { IsMomentOf (S.clock host.now) (asked_of request.now).moment at }
    requires depth { IsDepth (asked_of request.now).depth depth }
    requires compare { (asked_of request.now).compare ≡ None }
    requires question { IsQuestion (asked_of request.now).explain (asked_of request.now).number (Some question.now) }
    ensures ran { IfOk result (RunsOf P.Provider crypto.now (S.holds host.now) (S.clock host.now) request.now) }
    ensures denied { IfErr result (Denies (S.holds host.now) (S.clock host.now) request.now) }
{
    let explained = explain(alloc, question, request, host, crypto, at, depth)?;
    let status = status_of(explained.have_anchors, host.is_read());
    Ok(Ran {
        text: explained.text,
        metrics: Vec::new(alloc),
        report: explained.report,
        status,
    })
}

/// What is asked for, or the explanation of what is to be explained, at this moment and to this depth.
fn reply_at<S: Sources, P: PreparingProvider>(
    alloc: Global,
    request: &Request<'_, '_>,
    host: &S,
    crypto: &P,
    at: Time,
    depth: u32,
) -> Result<Ran, Denial>
    requires moment { IsMomentOf (S.clock host.now) (asked_of request.now).moment at }
    requires depth { IsDepth (asked_of request.now).depth depth }
    requires compare { (asked_of request.now).compare ≡ None }
    ensures ran { IfOk result (RunsOf P.Provider crypto.now (S.holds host.now) (S.clock host.now) request.now) }
    ensures denied { IfErr result (Denies (S.holds host.now) (S.clock host.now) request.now) }
{
    let asked = question_of(alloc, request.explain, request.number)?;
    match asked {
        Some(question) => explained_at(alloc, &question, request, host, crypto, at, depth),
        None => answer_at(alloc, request, host, crypto, at, depth),
    }
}

/// The comparison with what the file lists, at this moment and to this depth.
fn comparison_at<S: Sources, P: PreparingProvider>(
    alloc: Global,
    file: &str,
    request: &Request<'_, '_>,
    host: &S,
    crypto: &P,
    at: Time,
    depth: u32,
) -> Result<Ran, Denial>
    requires moment { IsMomentOf (S.clock host.now) (asked_of request.now).moment at }
    requires depth { IsDepth (asked_of request.now).depth depth }
    requires compare { (asked_of request.now).compare ≡ Some file.now }
    ensures ran { IfOk result (RunsOf P.Provider crypto.now (S.holds host.now) (S.clock host.now) request.now) }
    ensures denied { IfErr result (Denies (S.holds host.now) (S.clock host.now) request.now) }
{
    let compared = compare(alloc, file, request, host, crypto, at, depth)?;
    let is_right = both(compared.have_anchors, compared.are_same);
    let status = status_of(is_right, host.is_read());
    Ok(Ran {
        text: compared.text,
        metrics: Vec::new(alloc),
        report: compared.report,
        status,
    })
}

/// What is asked for, or the comparison, at this moment and to this depth.
fn response_at<S: Sources, P: PreparingProvider>(
    alloc: Global,
    request: &Request<'_, '_>,
    host: &S,
    crypto: &P,
    at: Time,
    depth: u32,
) -> Result<Ran, Denial>
    requires moment { IsMomentOf (S.clock host.now) (asked_of request.now).moment at }
    requires depth { IsDepth (asked_of request.now).depth depth }
    ensures ran { IfOk result (RunsOf P.Provider crypto.now (S.holds host.now) (S.clock host.now) request.now) }
    ensures denied { IfErr result (Denies (S.holds host.now) (S.clock host.now) request.now) }
{
    match request.compare {
        Some(file) => comparison_at(alloc, file, request, host, crypto, at, depth),
        None => reply_at(alloc, request, host, crypto, at, depth),
    }
}

/// What is asked for.
fn answer_of<S: Sources, P: PreparingProvider>(
    alloc: Global,
    request: &Request<'_, '_>,
    host: &S,
    crypto: &P,
) -> Result<Ran, Denial>
    ensures ran { IfOk result (RunsOf P.Provider crypto.now (S.holds host.now) (S.clock host.now) request.now) }
    ensures denied { IfErr result (Denies (S.holds host.now) (S.clock host.now) request.now) }
{
    match moment_at(host, request.moment) {
        Some(at) => match depth_of(request.depth) {
            Some(depth) => response_at(alloc, request, host, crypto, at, depth),
            None => Err(Denial::NoDepth),
        },
        None => Err(Denial::NoMoment),
    }
}

/// What is asked for, or why there is nothing.
fn answered<S: Sources, P: PreparingProvider>(
    alloc: Global,
    request: &Request<'_, '_>,
    host: &S,
    crypto: &P,
) -> Result<Ran, AllocError>
    ensures { IfOk result (RunsOf P.Provider crypto.now (S.holds host.now) (S.clock host.now) request.now) }
{
    match answer_of(alloc, request, host, crypto) {
        Ok(ran) => Ok(ran),
        Err(denial) => denied(alloc, denial, request, Vec::new(alloc)),
    }
}

/// Does what was asked for by these words, in which this was matched.
fn respond<S: Sources, P: PreparingProvider>(
    alloc: Global,
    words: &[String],
    matches: &ArgMatches<'_>,
    host: &S,
    crypto: &P,
) -> Result<Ran, AllocError>
    ensures help { WantsHelp matches.now → IfOk result (GivesBy HELP.now) }
    ensures version { WantsVersion matches.now → IfOk result (GivesBy VERSION.now) }
    ensures run { Asks matches.now result (RunsAs P.Provider crypto.now (S.holds host.now) (S.clock host.now)) }
    ensures usage { WantsNothing matches.now → IfOk result (ComplainsBy (complaint_of words.now)) }
{
    if is_given(matches, "help") {
        return given(alloc, HELP);
    }
    if is_given(matches, "version") {
        return given(alloc, VERSION);
    }
    match Request::of(matches) {
        Some(request) => answered(alloc, &request, host, crypto),
        None => {
            let report = complaint(alloc, words)?;
            Ok(complained(alloc, report))
        }
    }
}

/// Does in memory what the words, which are the program's arguments, ask for.
///
/// `--help` and `--version` are a text. Else it is the payloads that are valid at the moment in the copy, under the
/// locators, with the local exceptions that are asked for: exactly these, each once, in order, in the form that is
/// asked for; with their metrics, where they are asked for. Where an object or a route is to be explained, or a file to
/// be compared, it is that, in their place, without metrics. Standard error is told of each object that is rejected,
/// each locator without a trust anchor, and how many payloads there are; or why there are none. Of other words it is
/// what is wrong with them, and how the program is used.
///
/// The status is 0; 1 if a locator has no trust anchor, a file that is there could not be read, or a file that is
/// compared lists other payloads; 2 for other words, without a moment or a locator, and where the file of local
/// exceptions, or that to be compared, can't be read, or is none. Returns `AllocError` if allocation fails.
pub fn run<S: Sources, P: PreparingProvider>(
    alloc: Global,
    words: &[String],
    host: &S,
    crypto: &P,
) -> Result<Ran, AllocError>
    ensures help { AskHelp words.now → IfOk result (GivesBy HELP.now) }
    ensures version { AskVersion words.now → IfOk result (GivesBy VERSION.now) }
    ensures run { AskRun words.now result (RunsAs P.Provider crypto.now (S.holds host.now) (S.clock host.now)) }
    ensures usage { AskNothing words.now → IfOk result (ComplainsBy (complaint_of words.now)) }
{
    match matched(alloc, words) {
        Ok(Some(matches)) => respond(alloc, words, &matches, host, crypto),
        Ok(None) => {
            let report = complaint(alloc, words)?;
            Ok(complained(alloc, report))
        }
        Err(e) => Err(e),
    }
}
