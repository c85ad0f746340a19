//! Readers of resources of one kind, in place, and of AS identifiers.
//!
//! ```text
//! ASIdentifiers      ::= SEQUENCE { asnum [0] EXPLICIT ASIdentifierChoice }
//! ASIdentifierChoice ::= CHOICE { inherit NULL, asIdsOrRanges SEQUENCE OF ASIdOrRange }
//! ASIdOrRange        ::= CHOICE { id ASId, range SEQUENCE { min ASId, max ASId } }
//! ASId               ::= INTEGER (0..4294967295)
//! ```

ghost use Rattle.rpki_der.specs.Prelude.{left, Takes, TakesAll};
ghost use Rattle.rpki_resources.specs.InPlace.{blocks};
ghost use Rattle.rpki_resources.specs.Extension.{block_list, choice, asnum, as_resources};

use crate::choice_view::ChoiceView;
use crate::kind::ResourceKind;
use crate::view::BlocksView;
use rpki_der::{Class, Constructed, DecodeError, Tag};

/// A SEQUENCE of blocks in canonical form, one at least.
fn take_listed<'a>(
    cons: &mut Constructed<'a>,
    kind: ResourceKind,
) -> Result<BlocksView<'a>, DecodeError>
    ensures { Takes (λ x. x) (block_list kind) (left cons.old) (left cons.new) result }
{
    cons.in_sequence(
        |contents|
            ensures { TakesAll (λ x. x) (blocks kind) (left contents.old) (left contents.new) result }
        { BlocksView::take_contents(contents, kind) },
    )
}

/// Resources of the kind: NULL, which says those of the issuer, or a SEQUENCE of blocks. It takes no memory.
pub fn take_choice<'a>(
    cons: &mut Constructed<'a>,
    kind: ResourceKind,
) -> Result<ChoiceView<'a>, DecodeError>
    ensures { Takes (λ v. v) (choice kind) (left cons.old) (left cons.new) result }
{
    if cons.has_tag(Tag::NULL) {
        cons.take_null()?;
        return Ok(ChoiceView::Inherit);
    }
    let listed = take_listed(cons, kind)?;
    Ok(ChoiceView::Blocks(listed))
}

/// The AS numbers, under the explicit tag 0.
fn take_numbers<'a>(cons: &mut Constructed<'a>) -> Result<ChoiceView<'a>, DecodeError>
    ensures { Takes (λ v. v) asnum (left cons.old) (left cons.new) result }
{
    cons.in_constructed(
        Tag::new(Class::Context, 0),
        |contents|
            ensures { Takes (λ v. v) (choice ResourceKind.AsNumbers) (left contents.old) (left contents.new) result }
        { take_choice(contents, ResourceKind::AsNumbers) },
    )
}

/// Reads the contents of the extension of AS identifiers in place: a SEQUENCE of the AS numbers under the explicit tag
/// 0, and no routing domain identifiers (RFC 6487 4.8.11). It takes no memory.
///
/// The error is that of the leftmost part that isn't there.
pub fn take_as_resources<'a>(cons: &mut Constructed<'a>) -> Result<ChoiceView<'a>, DecodeError>
    ensures { Takes (λ v. v) as_resources (left cons.old) (left cons.new) result }
{
    cons.in_sequence(
        |contents|
            ensures { Takes (λ v. v) asnum (left contents.old) (left contents.new) result }
        { take_numbers(contents) },
    )
}
