//! Signed data whose signature is whole octets.

ghost use Rattle.std.specs.Prelude.{◌≡◌, ◌↔◌, ◌∷◌, ◌++◌, ℕ, List, length, IsTrue};
ghost use Rattle.rpki_der.specs.Prelude.{left, Reads};
ghost use Rattle.rpki_x509.specs.Signed.{SpellsWhole, IsWholeSignedFault};

use rpki::crypto::RpkiSignatureAlgorithm;
use rpki::der::{Constructed, DecodeError, Keep};
use rpki::repository::x509::SignedData;

/// Whether both have parameters, or neither.
pub fn is_same(one: RpkiSignatureAlgorithm, other: RpkiSignatureAlgorithm) -> bool
    ensures { IsTrue result ↔ (one ≡ other) }
{
    one.has_parameters() == other.has_parameters()
}

/// Whether the octet is 0 that is in front of the last ones, of which there are so many.
fn is_zero_before(octets: &[u8], last: usize) -> bool
    ensures { (front : List ℕ) (octet : ℕ) (end : List ℕ) → octets.now ≡ front ++ octet ∷ end → length end ≡ last
        → IsTrue result ↔ (octet ≡ 0) }
{
    if octets.len() <= last {
        return false;
    }
    octets[octets.len() - last - 1] == 0
}

/// Signed data whose signature has no unused bits: the octet in front of its octets counts them. Requires that `keep`
/// can keep parts of the rest.
///
/// The errors are those of signed data; then `Content` with the text `signature has unused bits`. An error leaves the
/// cursor where it was.
pub fn take_signed<K: Keep>(keep: K, cons: &mut Constructed<'_>) -> Result<SignedData, DecodeError>
    requires { K.holds keep (left cons.old) }
    ensures { Reads (λ x. x) SpellsWhole IsWholeSignedFault (left cons.old) (left cons.new) result }
{
    let mut after = *cons;
    let octets = cons.rest();
    let signed_data = SignedData::take_from(keep, &mut after)?;
    let last = signed_data.signature().value().len() + after.rest().len();
    if !is_zero_before(octets, last) {
        return Err(DecodeError::content("signature has unused bits"));
    }
    *cons = after;
    Ok(signed_data)
}
