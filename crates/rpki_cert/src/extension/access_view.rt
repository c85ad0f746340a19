//! URIs, and the CRL distribution point that has them, read in place without memory (RFC 6487 4.8.6).

ghost use Rattle.std.specs.Prelude.{◌≡◌, ◌≢◌, ◌∷◌, [], IfErr};
ghost use Rattle.std.specs.Option.{option_copied};
ghost use Rattle.rpki_der.specs.Cursor.{left};
ghost use Rattle.rpki_der.specs.Each.{SpellsSome};
ghost use Rattle.rpki_x509.specs.InPlace.{Gives, GivesAll};
ghost use Rattle.rpki_cert.specs.Access.{Through, SpellsUri, first_rsync, SpellsPointName, SpellsPoints};

use crate::extension::general_name::take_text;
use rpki::der::{Class, Constructed, DecodeError, Tag};
use rpki::uri::RsyncView;
use rpki_x509::inside;

/// The text of a general name that is a URI.
fn take_uri<'a>(cons: &mut Constructed<'a>) -> Result<Option<&'a [u8]>, DecodeError>
    ensures gives { Gives option_copied SpellsUri (left cons.old) (left cons.new) result }
    ensures kind { IfErr result (λ e. e ≢ DecodeError.OutOfMemory) }
{
    let text = take_text(cons)?;
    Ok(Some(text))
}

/// The text, if it is an rsync URI.
pub fn rsync_in<'a>(name: Option<&'a [u8]>) -> Option<&'a [u8]>
    ensures { option_copied result ≡ first_rsync (option_copied name.entry ∷ []) }
{
    match name {
        Some(text) => match RsyncView::from_slice(text) {
            Ok(_) => Some(text),
            Err(_) => None,
        },
        None => None,
    }
}

/// The first rsync URI of the names that these contents are, each a URI; there is one at least.
fn uris_in<'a>(contents: Constructed<'a>) -> Result<Option<&'a [u8]>, DecodeError>
    ensures gives { GivesAll option_copied (Through first_rsync (SpellsSome SpellsUri)) (left contents.entry) result }
    ensures kind { IfErr result (λ e. e ≢ DecodeError.OutOfMemory) }
{
    if contents.is_empty() {
        return Err(DecodeError::content("empty SEQUENCE"));
    }
    let mut rest = contents;
    let mut found = None;
    'uris: while !rest.is_empty() {
        let name = take_uri(&mut rest)?;
        found = found.or(rsync_in(name));
    }
    Ok(found)
}

/// The name of a distribution point, in these contents of the point.
fn point_name<'a>(point: Constructed<'a>) -> Result<Option<&'a [u8]>, DecodeError>
    ensures gives { GivesAll option_copied SpellsPointName (left point.entry) result }
    ensures kind { IfErr result (λ e. e ≢ DecodeError.OutOfMemory) }
{
    let tag = Tag::new(Class::Context, 0);
    let name = inside(point, tag)?;
    let contents = inside(name, tag)?;
    uris_in(contents)
}

/// CRL distribution points: a SEQUENCE of exactly one, with a full name alone, of which each name is a URI, and nothing
/// else. Returns the first rsync URI (RFC 6487 4.8.6). Allocates nothing.
pub fn read_points<'a>(octets: Constructed<'a>) -> Result<Option<&'a [u8]>, DecodeError>
    ensures gives { GivesAll option_copied SpellsPoints (left octets.entry) result }
    ensures kind { IfErr result (λ e. e ≢ DecodeError.OutOfMemory) }
{
    let points = inside(octets, Tag::SEQUENCE)?;
    let point = inside(points, Tag::SEQUENCE)?;
    point_name(point)
}
