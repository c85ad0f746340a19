//! Values whose header is two octets, as nearly all in long lists have: what begins so is read without naming the
//! errors of what doesn't.

ghost use Rattle.std.specs.Prelude.{ℕ, List, IfSome, IfNone};
ghost use Rattle.rpki_x509.specs.Short.{IsShort};

/// The contents of the value at the front, where its header is this octet and a length below 128 (X.690 8.1.2.2,
/// 8.1.3.4), and what follows it; None where it isn't. The octet names the tag and the form. Allocates nothing.
#[inline(always)]
pub fn short_value(octets: &[u8], first: u8) -> Option<(&[u8], &[u8])>
    ensures some { IfSome result (λ x. IsShort first octets.now x.0.now x.1.now) }
    ensures none { IfNone result ((contents rest : List ℕ) → ¬ (IsShort first octets.now contents rest)) }
{
    match octets {
        [lead, length, following @ ..] => {
            let length = usize::from(*length);
            if *lead != first || length > 127 || following.len() < length {
                return None;
            }
            Some(following.split_at(length))
        }
        _ => None,
    }
}
