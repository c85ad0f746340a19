//! Where something is, as an extension says (RFC 5280 4.2.1.13, 4.2.2), read in place without memory.

ghost use Rattle.rpki_der.specs.Prelude.{left, Takes, TakesAll, TakesWholeInPlace};
ghost use Rattle.rpki_cert.specs.AccessDescription.{description_of, description_parts, description, names, full_name};
ghost use Rattle.rpki_cert.specs.AccessDescription.{point, points};

use crate::extension::general_name::take_name;
use rpki::der::{Class, Constructed, DecodeError, Oid, Tag};

/// An access description (RFC 5280 4.2.2.1), of which a subject or authority information access has one or more.
#[derive(Clone, Copy)]
pub struct AccessDescription<'a> {
    /// The identifier of what is to be found there.
    pub method: Oid<&'a [u8]>,
    /// The text of the URI that says where; `None` for a name of another form.
    pub location: Option<&'a [u8]>,
}

impl<'a> AccessDescription<'a> {
    /// Reads an access description: a SEQUENCE of an object identifier and a general name, and nothing else. Allocates
    /// nothing.
    ///
    /// The errors are those of a SEQUENCE; then those of the first part that could not be read, or `Trailing` if more
    /// follows. An error leaves the cursor where it was.
    pub fn take_from(cons: &mut Constructed<'a>) -> Result<AccessDescription<'a>, DecodeError>
        ensures { Takes description_of description (left cons.old) (left cons.new) result }
    {
        cons.in_sequence(
            |contents|
                ensures { TakesAll description_of description_parts (left contents.old) (left contents.new) result }
            {
                let method = match contents.take_oid() {
                    Ok(method) => method,
                    Err(e) => return Err(e),
                };
                let location = match take_name(contents) {
                    Ok(location) => location,
                    Err(e) => return Err(e),
                };
                Ok(AccessDescription { method, location })
            },
        )
    }
}

/// The general names of a full name, which are not read.
fn take_names<'a>(cons: &mut Constructed<'a>) -> Result<Constructed<'a>, DecodeError>
    ensures { Takes left names (left cons.old) (left cons.new) result }
{
    cons.take_constructed_if(Tag::new(Class::Context, 0))
}

/// The name of a distribution point, which is a full name.
fn take_full_name<'a>(cons: &mut Constructed<'a>) -> Result<Constructed<'a>, DecodeError>
    ensures { Takes left full_name (left cons.old) (left cons.new) result }
{
    cons.in_constructed(
        Tag::new(Class::Context, 0),
        |name|
            ensures { Takes left names (left name.old) (left name.new) result }
        { take_names(name) },
    )
}

/// A distribution point that has a full name and nothing else.
fn take_point<'a>(cons: &mut Constructed<'a>) -> Result<Constructed<'a>, DecodeError>
    ensures { Takes left point (left cons.old) (left cons.new) result }
{
    cons.in_sequence(
        |point|
            ensures { Takes left full_name (left point.old) (left point.new) result }
        { take_full_name(point) },
    )
}

/// One such distribution point.
fn take_points<'a>(cons: &mut Constructed<'a>) -> Result<Constructed<'a>, DecodeError>
    ensures { Takes left points (left cons.old) (left cons.new) result }
{
    cons.in_sequence(
        |points|
            ensures { Takes left point (left points.old) (left points.new) result }
        { take_point(points) },
    )
}

/// The general names of the one distribution point that these octets are, in sequence: what the octets of CRL
/// distribution points have to be in the RPKI, where the point has a full name and nothing else (RFC 6487 4.8.6). The
/// names themselves are not read. Allocates nothing.
///
/// The errors are those of the first header that isn't there, from the left, or `Trailing` where more follows.
pub fn point_names<'a>(octets: &'a [u8]) -> Result<&'a [u8], DecodeError>
    ensures { TakesWholeInPlace (λ names. names.now) points octets.now result }
{
    let found = Constructed::from_slice(octets).whole(
        |cons|
            ensures { Takes left points (left cons.old) (left cons.new) result }
        { take_points(cons) },
    );
    match found {
        Ok(names) => Ok(names.rest()),
        Err(e) => Err(e),
    }
}
