//! What an authority of the RPKI issues (RFC 6487 4, 5, RFC 6488). Of certificates there are encoders of the contents
//! of each extension, and of what is signed around any list of extensions. A certificate, a revocation list or a signed
//! object is issued in two steps: [TbsCertBuilder::to_sign], [UnsignedCrl::new] and [UnsignedObject::new] are what is
//! signed, and `signed` takes a signature, from whoever made it, and verifies it; `signed_with` asks a [Signer] for it.
//! [write_locator] is the text by which a trust anchor is found (RFC 8630 2.2). [laws] says that what is issued has its
//! profile.
#![tactic(auto)]

mod capture;
mod contents;
mod crl_written;
mod csr_written;
mod doubled;
mod error;
mod frame;
mod kind;
pub mod laws;
mod listed;
mod locator_written;
mod row;
mod signer;
mod signing;
mod tbs;
mod unsigned_cert;
mod unsigned_crl;
mod unsigned_csr;
mod unsigned_object;
mod uris;
mod written;

pub use contents::{
    AccessEncoder, ConstraintsEncoder, DescriptionEncoder, PointsEncoder, PoliciesEncoder,
    PurposesEncoder, QualifiersEncoder, UsageContent, encode_access, encode_authority,
    encode_constraints, encode_points, encode_policies, encode_purposes, encode_repository,
    encode_subject_identifier, encode_usage,
};
pub use csr_written::CsrBuilder;
pub use error::IssueError;
pub use frame::ContextThreeFrame;
pub use kind::{CertExtensions, CertKind, Issuance, Repository};
pub use locator_written::{LocatorWriteError, write_locator};
pub use signer::{Signer, SigningError};
pub use tbs::{TbsCertBuilder, TbsCertEncoder};
pub use unsigned_cert::UnsignedCert;
pub use unsigned_crl::UnsignedCrl;
pub use unsigned_csr::UnsignedCsr;
pub use unsigned_object::UnsignedObject;
