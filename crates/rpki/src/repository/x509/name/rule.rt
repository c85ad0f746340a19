//! The rules of the profiles of names, and the errors of names that break them.

ghost use Rattle.std.specs.Prelude.{◌≡◌};
ghost use Rattle.rpki_der.specs.Prelude.{text_of};
ghost use Rattle.rpki.specs.ErrorContent.{content_of};
ghost use Rattle.rpki.specs.NameRule.{rpki_text, router_text};

use crate::repository::error::InspectionError;
use rpki_der::ContentError;

/// A rule of a profile of names (RFC 6487 4.4, RFC 8209 3.1.1).
#[derive(Clone, Copy, Debug, PartialEq, Eq)]
pub enum NameRule {
    /// There is a common name.
    MissingCommonName,
    /// There is no second common name.
    SecondCommonName,
    /// There is no second serial number.
    SecondSerialNumber,
    /// There is no second organization name.
    SecondOrganizationName,
    /// Each value is a string that the profile permits.
    OtherString,
    /// Each attribute is a common name, a serial number or an organization name.
    OtherAttribute,
}

/// The error of this text.
fn refusal(text: &'static str) -> InspectionError
    ensures { text_of (content_of result) ≡ text.now }
{
    InspectionError::new(ContentError::from_static(text))
}

impl NameRule {
    /// The error of a name of the RPKI that breaks the rule.
    pub fn rpki_error(self) -> InspectionError
        ensures { text_of (content_of result) ≡ rpki_text self }
    {
        match self {
            NameRule::MissingCommonName => refusal("missing common name"),
            NameRule::SecondCommonName => refusal("multiple common names"),
            NameRule::SecondSerialNumber => refusal("multiple serial numbers"),
            NameRule::SecondOrganizationName => refusal("multiple organization names"),
            NameRule::OtherString => refusal("invalid name"),
            NameRule::OtherAttribute => refusal("invalid name"),
        }
    }

    /// The error of a name of a router that breaks the rule.
    pub fn router_error(self) -> InspectionError
        ensures { text_of (content_of result) ≡ router_text self }
    {
        match self {
            NameRule::OtherString => refusal("unpermitted string variant in common name"),
            rule => rule.rpki_error(),
        }
    }
}
