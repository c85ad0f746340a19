//! Parts of certificates and of other signed objects (RFC 5280, RFC 6487).

mod cert_extension;
mod extension;
mod name;
mod signed_data;
mod subject_name;
mod update;

pub use cert_extension::{
    CertExtension, ExtensionBytes, ExtensionOctets, ExtensionView, PlacedExtension,
};
pub use extension::{Extension, encode_extension};
pub use name::{AttributeView, Attributes, Name, NameOctets, NameRule, NameView};
pub use rpki_time::{
    GeneralizedTime, RepresentationError, Serial, SerialSliceError, SerialText, Time,
    TimeParseError, UtcTime, Validity, ValidityPeriodError, VariedTime,
};
pub use signed_data::{SignatureValueContent, SignedData};
pub use subject_name::SubjectName;
pub use update::update_first;
