//! Why objects of the repository are rejected.

ghost use Rattle.std.specs.Prelude.{◌≡◌};

use crate::crypto::SignatureVerificationError;
use rpki_der::{ContentError, DecodeError};
use rpki_time::ValidityPeriodError;
use std::error::Error;
use std::fmt;

/// An object that was read violates its profile.
#[derive(Clone, Copy, Debug, PartialEq, Eq)]
pub struct InspectionError {
    inner: ContentError,
}

impl InspectionError {
    ghost use Rattle.rpki.specs.ErrorContent.{content_of};

    /// The error of this content.
    pub fn new(inner: ContentError) -> InspectionError
        ensures { content_of result ≡ inner }
    {
        InspectionError { inner }
    }
}

/// The text of the content.
impl fmt::Display for InspectionError {
    ghost use Rattle.std.specs.Prelude.{Some};
    ghost use Rattle.rpki_der.specs.Prelude.{text_of};
    ghost use Rattle.rpki.specs.ErrorContent.{content_of};

    ghost output = { λ e. Some (text_of (content_of e)) };

    fn fmt<W: fmt::Write>(&self, f: &mut fmt::Formatter<W>) -> fmt::Result {
        self.inner.fmt(f)
    }
}

impl Error for InspectionError {}

impl From<ContentError> for InspectionError {
    ghost use Rattle.rpki.specs.ErrorContent.{content_of};

    ghost from_gives = { λ inner e. content_of e ≡ inner };

    fn from(inner: ContentError) -> InspectionError {
        InspectionError { inner }
    }
}

impl From<InspectionError> for ContentError {
    ghost use Rattle.rpki.specs.ErrorContent.{content_of};

    ghost from_gives = { λ e inner. inner ≡ content_of e };

    fn from(e: InspectionError) -> ContentError {
        e.inner
    }
}

/// An object failed verification: a signature, a validity period or an issuer is not as required.
#[derive(Clone, Copy, Debug, PartialEq, Eq)]
pub struct VerificationError {
    inner: ContentError,
}

impl VerificationError {
    ghost use Rattle.rpki.specs.ErrorContent.{verification_content};

    /// The error of this content.
    pub fn new(inner: ContentError) -> VerificationError
        ensures { verification_content result ≡ inner }
    {
        VerificationError { inner }
    }
}

/// The text of the content.
impl fmt::Display for VerificationError {
    ghost use Rattle.std.specs.Prelude.{Some};
    ghost use Rattle.rpki_der.specs.Prelude.{text_of};
    ghost use Rattle.rpki.specs.ErrorContent.{verification_content};

    ghost output = { λ e. Some (text_of (verification_content e)) };

    fn fmt<W: fmt::Write>(&self, f: &mut fmt::Formatter<W>) -> fmt::Result {
        self.inner.fmt(f)
    }
}

impl Error for VerificationError {}

impl From<ContentError> for VerificationError {
    ghost use Rattle.rpki.specs.ErrorContent.{verification_content};

    ghost from_gives = { λ inner e. verification_content e ≡ inner };

    fn from(inner: ContentError) -> VerificationError {
        VerificationError { inner }
    }
}

/// The error with the same text.
impl From<SignatureVerificationError> for VerificationError {
    ghost use Rattle.rpki_der.specs.Prelude.{text_of};
    ghost use Rattle.rpki.specs.ErrorContent.{verification_content};
    ghost use Rattle.rpki.specs.ErrorTexts.{verification_text};

    ghost from_gives = { λ _ e. text_of (verification_content e) ≡ verification_text };

    fn from(inner: SignatureVerificationError) -> VerificationError {
        VerificationError::new(ContentError::from(inner))
    }
}

/// The error of a certificate that is not yet valid or has expired.
impl From<ValidityPeriodError> for VerificationError {
    ghost use Rattle.rpki_der.specs.Prelude.{text_of};
    ghost use Rattle.rpki.specs.ErrorContent.{verification_content};
    ghost use Rattle.rpki.specs.ErrorTexts.{period_text};

    ghost from_gives = { λ period e. text_of (verification_content e) ≡ period_text period };

    fn from(period: ValidityPeriodError) -> VerificationError {
        let text = if period.is_too_new() {
            "certificate is not yet valid"
        } else {
            "certificate has expired"
        };
        VerificationError::new(ContentError::from_static(text))
    }
}

/// Why an object is not valid.
#[derive(Clone, Copy, Debug, PartialEq, Eq)]
pub enum ValidationError {
    /// It could not be read.
    Decoding(DecodeError),
    /// It violates its profile.
    Inspection(InspectionError),
    /// It failed verification.
    Verification(VerificationError),
}

impl ValidationError {
    ghost use Rattle.std.specs.Prelude.{◌↔◌, IsTrue};

    /// Whether allocation failed: nothing is known of the object.
    pub fn is_out_of_memory(self) -> bool
        ensures { IsTrue result ↔ (self ≡ ValidationError.Decoding DecodeError.OutOfMemory) }
    {
        match self {
            ValidationError::Decoding(DecodeError::OutOfMemory) => true,
            _ => false,
        }
    }
}

/// The text of what is inside.
impl fmt::Display for ValidationError {
    ghost use Rattle.rpki.specs.ErrorContent.{validation_text};

    ghost output = { validation_text };

    fn fmt<W: fmt::Write>(&self, f: &mut fmt::Formatter<W>) -> fmt::Result {
        match self {
            ValidationError::Decoding(inner) => inner.fmt(f),
            ValidationError::Inspection(inner) => inner.fmt(f),
            ValidationError::Verification(inner) => inner.fmt(f),
        }
    }
}

impl Error for ValidationError {}

impl From<DecodeError> for ValidationError {
    ghost use Rattle.rpki.specs.declared.repository.error.ValidationError.TheVariants.{Decoding};

    ghost from_gives = { λ inner e. e ≡ Decoding inner };

    fn from(inner: DecodeError) -> ValidationError {
        ValidationError::Decoding(inner)
    }
}

impl From<InspectionError> for ValidationError {
    ghost use Rattle.rpki.specs.declared.repository.error.ValidationError.TheVariants.{Inspection};

    ghost from_gives = { λ inner e. e ≡ Inspection inner };

    fn from(inner: InspectionError) -> ValidationError {
        ValidationError::Inspection(inner)
    }
}

impl From<VerificationError> for ValidationError {
    ghost use Rattle.rpki.specs.declared.repository.error.ValidationError.TheVariants.{Verification};

    ghost from_gives = { λ inner e. e ≡ Verification inner };

    fn from(inner: VerificationError) -> ValidationError {
        ValidationError::Verification(inner)
    }
}
