//! Names, read in place (RFC 5280 4.1.2.4, X.501 9.2).

ghost use Rattle.rpki_der.specs.Cursor.{left};
ghost use Rattle.rpki_x509.specs.Name.{TakesName};

use rpki::der::{Constructed, DecodeError, Section};
use rpki::repository::x509::NameView;

/// A name, as the section of it; moves past it. Allocates nothing.
///
/// The errors are those of [NameView::take_from], with the cursor where it was.
pub fn take_name<'a>(cons: &mut Constructed<'a>) -> Result<Section<'a>, DecodeError>
    ensures { TakesName (left cons.old) (left cons.new) result }
{
    match NameView::take_from(cons) {
        Ok(name) => Ok(Section {
            octets: name.octets(),
            following: cons.rest().len(),
        }),
        Err(e) => Err(e),
    }
}
