//! One extension of a certificate, whichever others there are.

ghost use Rattle.std.specs.Prelude.{◌≡◌, ◌<◌, IfSome, IfNone};
ghost use Rattle.rpki_c.specs.Certificate.{kind_number, IsExtensionReadOf, IsExtensionFound};

use crate::certificate::part_number;
use crate::certificate_extensions::{KnownExtension, extension_of};
use crate::status::NO_ANSWER;
use rpki_cert::{CertView, ExtensionKind};

/// The extension of this number: that of its member in `KnownExtensions`.
fn kind_of(number: u8) -> Option<ExtensionKind>
    ensures some { IfSome result (λ kind. number ≡ kind_number kind) }
    ensures none { IfNone result (12 < number) }
{
    match number {
        0 => Some(ExtensionKind::BasicConstraints),
        1 => Some(ExtensionKind::SubjectKeyIdentifier),
        2 => Some(ExtensionKind::AuthorityKeyIdentifier),
        3 => Some(ExtensionKind::KeyUsage),
        4 => Some(ExtensionKind::ExtendedKeyUsage),
        5 => Some(ExtensionKind::CrlDistributionPoints),
        6 => Some(ExtensionKind::AuthorityInfoAccess),
        7 => Some(ExtensionKind::SubjectInfoAccess),
        8 => Some(ExtensionKind::CertificatePolicies),
        9 => Some(ExtensionKind::IpResources),
        10 => Some(ExtensionKind::IpResourcesV2),
        11 => Some(ExtensionKind::AsResources),
        12 => Some(ExtensionKind::AsResourcesV2),
        _ => None,
    }
}

/// Reads a resource certificate, and says what its extension of this kind is; returns the status.
fn find<'a>(octets: &'a [u8], kind: ExtensionKind, out: &mut KnownExtension<'a>) -> u8
    ensures { IsExtensionReadOf octets.now kind result out.old out.new }
{
    match CertView::read(octets) {
        Ok(found) => {
            *out = extension_of(&found, kind);
            0
        }
        Err(wrong) => part_number(wrong.part),
    }
}

/// Reads a resource certificate, as `rpki_certificate` does, and says what its extension of this number is, and
/// whether it is critical (RFC 6487 4.8). Neither its octets nor other extensions are looked at.
///
/// The status is 0; `NO_ANSWER` where no extension has the number, before the octets are looked at; else it is the
/// number of the malformed part. Unless it is 0, `out` is unchanged. Nothing is allocated.
#[unsafe(no_mangle)]
pub extern "C" fn rpki_certificate_extension<'a>(
    octets: &'a [u8],
    number: u8,
    out: &mut KnownExtension<'a>,
) -> u8
    ensures { IsExtensionFound octets.now number result out.old out.new }
{
    match kind_of(number) {
        Some(kind) => find(octets, kind, out),
        None => NO_ANSWER,
    }
}
