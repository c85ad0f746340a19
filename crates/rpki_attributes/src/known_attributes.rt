//! What signed attributes say (RFC 6488 2.1.6.4, RFC 9589 4).

ghost use Rattle.std.specs.Prelude.{◌≡◌};
ghost use Rattle.rpki_der.specs.Prelude.{left, any_oid};
ghost use Rattle.rpki_time.specs.TimeValue.{time};
ghost use Rattle.rpki_attributes.specs.SignedAttributes.{attributes_in, values_of, IsOnce, IsAtMostOnce, FindsOne};
ghost use Rattle.rpki_attributes.specs.SignedAttributes.{digest_value, binary_time, is_timed, AreSigned, values_known};
ghost use Rattle.rpki_attributes.specs.SignedAttributes.{content_type, message_digest, signing_time};
ghost use Rattle.rpki_attributes.specs.SignedAttributes.{binary_signing_time};

use crate::attribute::{AttributeView, are_known, values_of};
use rpki::der::{Constructed, Oid};
use rpki::oid;
use rpki::repository::x509::Time;
use rpki_x509::MessageDigest;

/// What the signed attributes of a signed object say.
#[derive(Clone, Copy)]
pub struct KnownAttributes<'a> {
    /// The type of the content.
    pub content_type: Oid<&'a [u8]>,
    /// The digest of the content.
    pub message_digest: MessageDigest,
    /// When the attributes were signed.
    pub signing_time: Option<Time>,
    /// The same in seconds since 1970.
    pub binary_signing_time: Option<u64>,
}

/// The object identifier that the octets are.
fn oid_in<'a>(values: Constructed<'a>) -> Option<Oid<&'a [u8]>>
    ensures { FindsOne (λ o. o.0.now) (λ v. any_oid.spells v (left values.entry)) result }
{
    let mut rest = values;
    match rest.take_oid() {
        Ok(found) => {
            if rest.is_empty() {
                return Some(found);
            }
            None
        }
        Err(_) => None,
    }
}

/// The digest that the octets are.
fn digest_in(values: Constructed<'_>) -> Option<MessageDigest>
    ensures { FindsOne (λ d. d) (λ v. digest_value.spells v (left values.entry)) result }
{
    let mut rest = values;
    match MessageDigest::take_from(&mut rest) {
        Ok(found) => {
            if rest.is_empty() {
                return Some(found);
            }
            None
        }
        Err(_) => None,
    }
}

/// The time that the octets are.
fn time_in(values: Constructed<'_>) -> Option<Time>
    ensures { FindsOne (λ t. t) (λ v. time.spells v (left values.entry)) result }
{
    let mut rest = values;
    match Time::take_from(&mut rest) {
        Ok(found) => {
            if rest.is_empty() {
                return Some(found);
            }
            None
        }
        Err(_) => None,
    }
}

/// The number of seconds that the octets are.
fn seconds_in(values: Constructed<'_>) -> Option<u64>
    ensures { FindsOne (λ n. n) (λ v. binary_time.spells v (left values.entry)) result }
{
    let mut rest = values;
    match rest.take_u64() {
        Ok(found) => {
            if rest.is_empty() {
                return Some(found);
            }
            None
        }
        Err(_) => None,
    }
}

/// The type of the content, where the attribute is there once.
fn content_type_of<'a>(all: &[AttributeView<'a>]) -> Option<Oid<&'a [u8]>>
    ensures { FindsOne (λ o. o.0.now) (IsOnce any_oid (values_of content_type (attributes_in all.now))) result }
{
    match values_of(all, oid::CONTENT_TYPE) {
        Some(Some(values)) => oid_in(values),
        Some(None) => None,
        None => None,
    }
}

/// The digest, where the attribute is there once.
fn message_digest_of(all: &[AttributeView<'_>]) -> Option<MessageDigest>
    ensures { FindsOne (λ d. d) (IsOnce digest_value (values_of message_digest (attributes_in all.now))) result }
{
    match values_of(all, oid::MESSAGE_DIGEST) {
        Some(Some(values)) => digest_in(values),
        Some(None) => None,
        None => None,
    }
}

/// When they were signed, where the attribute is there at most once.
fn signing_time_of(all: &[AttributeView<'_>]) -> Option<Option<Time>>
    ensures { FindsOne (λ t. t) (IsAtMostOnce time (values_of signing_time (attributes_in all.now))) result }
{
    match values_of(all, oid::SIGNING_TIME) {
        Some(Some(values)) => match time_in(values) {
            Some(found) => Some(Some(found)),
            None => None,
        },
        Some(None) => Some(None),
        None => None,
    }
}

/// The same in seconds.
fn binary_signing_time_of(all: &[AttributeView<'_>]) -> Option<Option<u64>>
    ensures { FindsOne (λ n. n) (IsAtMostOnce binary_time (values_of binary_signing_time (attributes_in all.now)))
        result }
{
    match values_of(all, oid::AA_BINARY_SIGNING_TIME) {
        Some(Some(values)) => match seconds_in(values) {
            Some(found) => Some(Some(found)),
            None => None,
        },
        Some(None) => Some(None),
        None => None,
    }
}

/// Whether the times that are there are those of RFC 9589 4, where that is asked for.
fn is_timed(strict: bool, has_time: bool, has_binary: bool) -> bool
    ensures { result ≡ is_timed strict has_time has_binary }
{
    if !strict {
        return true;
    }
    if !has_time {
        return false;
    }
    !has_binary
}

impl<'a> KnownAttributes<'a> {
    /// What the attributes of a signed object say.
    pub fn of(all: &[AttributeView<'a>], strict: bool) -> Option<KnownAttributes<'a>>
        ensures { FindsOne values_known (AreSigned strict (attributes_in all.now)) result }
    {
        if !are_known(all) {
            return None;
        }
        let content_type = content_type_of(all)?;
        let message_digest = message_digest_of(all)?;
        let signing_time = signing_time_of(all)?;
        let binary_signing_time = binary_signing_time_of(all)?;
        if !is_timed(
            strict,
            signing_time.is_some(),
            binary_signing_time.is_some(),
        ) {
            return None;
        }
        Some(KnownAttributes {
            content_type,
            message_digest,
            signing_time,
            binary_signing_time,
        })
    }
}
