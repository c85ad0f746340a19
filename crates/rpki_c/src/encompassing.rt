//! Whether resources encompass others: in place, by one pass over the blocks of both.

ghost use Rattle.rpki_c.specs.Resources.{IsIpCompared, IsAsCompared};

use crate::resources::{read_as, read_ip};
use crate::status::{NO_ANSWER, SECOND};
use rpki_resources::{as_resources_encompass, ip_resources_encompass};

/// Reads the contents of two extensions of IP address blocks (RFC 3779 2.2.3, RFC 6487 4.8.10), and says whether the
/// addresses of the second are within those of the first, its issuer's (RFC 6487 7.2): in each family none are listed,
/// or they are the issuer's, or each of those that are listed is listed by the first.
///
/// The status is 0; `NO_ANSWER` where the second lists addresses of a family of which the first has those of its own
/// issuer; else the number of the error of the first, the leftmost; else that of the second, and `SECOND` more. Unless
/// it is 0, `out` is unchanged. Nothing is allocated.
#[unsafe(no_mangle)]
pub extern "C" fn rpki_ip_blocks_encompass(outer: &[u8], inner: &[u8], out: &mut bool) -> u8
    ensures { IsIpCompared outer.now inner.now result out.old out.new }
{
    if let Some(answer) = ip_resources_encompass(outer, inner) {
        *out = answer;
        return 0;
    }
    match read_ip(outer) {
        Ok(_) => match read_ip(inner) {
            Ok(_) => NO_ANSWER,
            Err(e) => e.number() + SECOND,
        },
        Err(e) => e.number(),
    }
}

/// As [rpki_ip_blocks_encompass], of the contents of two extensions of AS identifiers (RFC 3779 3.2.3, RFC 6487
/// 4.8.11). Nothing is allocated.
#[unsafe(no_mangle)]
pub extern "C" fn rpki_as_blocks_encompass(outer: &[u8], inner: &[u8], out: &mut bool) -> u8
    ensures { IsAsCompared outer.now inner.now result out.old out.new }
{
    if let Some(answer) = as_resources_encompass(outer, inner) {
        *out = answer;
        return 0;
    }
    match read_as(outer) {
        Ok(_) => match read_as(inner) {
            Ok(_) => NO_ANSWER,
            Err(e) => e.number() + SECOND,
        },
        Err(e) => e.number(),
    }
}
