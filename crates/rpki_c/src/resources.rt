//! The contents of the two extensions of resources, in place.

ghost use Rattle.std.specs.Prelude.{◌≡◌};
ghost use Rattle.rpki_der.specs.Cursor.{left};
ghost use Rattle.rpki_der.specs.Reading.{Reads, Decodes};
ghost use Rattle.rpki_resources.specs.Extension.{SpellsIpResources, IsIpResourcesFault, SpellsAsResources};
ghost use Rattle.rpki_resources.specs.Extension.{IsAsResourcesFault};
ghost use Rattle.rpki_c.specs.Resources.{IsWholeIpFault, IsWholeAsFault, view_count};

use rpki_der::{Constructed, DecodeError};
use rpki_resources::{ChoiceView, IpResourcesView, take_as_resources, take_ip_resources};

/// The addresses that all of the octets are.
pub(crate) fn read_ip(octets: &[u8]) -> Result<IpResourcesView<'_>, DecodeError>
    ensures { Decodes (λ x. x) SpellsIpResources IsWholeIpFault octets.now result }
{
    Constructed::from_slice(octets).whole(
        |cons|
            ensures { Reads (λ x. x) SpellsIpResources IsIpResourcesFault (left cons.old) (left cons.new) result }
        { take_ip_resources(cons) },
    )
}

/// The AS numbers that all of the octets are.
pub(crate) fn read_as(octets: &[u8]) -> Result<ChoiceView<'_>, DecodeError>
    ensures { Decodes (λ x. x) SpellsAsResources IsWholeAsFault octets.now result }
{
    Constructed::from_slice(octets).whole(
        |cons|
            ensures { Reads (λ x. x) SpellsAsResources IsAsResourcesFault (left cons.old) (left cons.new) result }
        { take_as_resources(cons) },
    )
}

/// How many entries resources of one kind have: one for each block, or one that says whose they are.
pub(crate) fn count_of(choice: &ChoiceView<'_>) -> usize
    ensures { result ≡ view_count choice.now }
{
    match choice {
        ChoiceView::Missing => 0,
        ChoiceView::Inherit => 1,
        ChoiceView::Blocks(listed) => listed.count(),
    }
}
