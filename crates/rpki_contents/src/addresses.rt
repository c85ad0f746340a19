//! The prefixes of a family of a route origin attestation, in sequence, in place (RFC 9582 4.3.2).

ghost use Rattle.std.specs.Prelude.{◌≡◌, ◌<◌, Ok, IfSome, [], length};
ghost use Rattle.rpki_der.specs.Prelude.{AreBits, bits_of, left};
ghost use Rattle.rpki_parse.specs.Words.{Moves, kinds, parsed};
ghost use Rattle.rpki_resources.specs.Address.{width};
ghost use Rattle.rpki_contents.specs.RoaView.{count_at, fits, max_length_at, prefix_at, size_of};

use rpki_der::{BitString, Constructed, DecodeError, Tag};
use rpki_parse::{Step, finish, fold, has_tag, take_bits, take_sequence, take_u8};
use rpki_resources::AddressFamily;
use rpki_x509::short_value;

/// Whether so many bits are at most as many as an address of the family has, and a maximum length, where there is one,
/// is from as many to that of an address.
#[inline(always)]
fn fits(family: AddressFamily, size: u8, max_length: Option<u8>) -> bool
    ensures { result ≡ fits (width family) size max_length }
{
    match max_length {
        Some(most) => size <= most && most <= family.width(),
        None => size <= family.width(),
    }
}

/// The same of these bits.
fn bits_fit(family: AddressFamily, unused: u8, octets: &[u8], max_length: Option<u8>) -> bool
    requires { AreBits (bits_of unused octets.now) }
    ensures { result ≡ fits (width family) (size_of (bits_of unused octets.now)) max_length }
{
    if octets.len() > 16 {
        return false;
    }
    fits(family, octets.len() as u8 * 8 - unused, max_length)
}

/// The maximum length that all of the octets are, which may be left out, where its header is two octets.
#[inline(always)]
#[tactic(auto, using(crate::proofs::PrefixLaws::left_out, crate::proofs::PrefixLaws::is_there))]
fn short_max_length(octets: &[u8]) -> Option<Option<u8>>
    ensures { IfSome result (λ m. max_length_at octets.now ≡ Ok (m, [])) }
{
    match octets {
        [] => Some(None),
        [tag, count, length] => {
            if *tag != 0x02 || *count != 0x01 || *length > 127 {
                return None;
            }
            Some(Some(*length))
        }
        _ => None,
    }
}

/// What follows the prefix of the family at the front, where it is written shortly: its header and those of its parts
/// are two octets each, and a maximum length is one.
#[inline(always)]
fn after_short_prefix(octets: &[u8], family: AddressFamily) -> Option<&[u8]>
    ensures reads { IfSome result (λ r. Ok (tt, r.now) ≡ prefix_at (width family) octets.now) }
    ensures shorter { IfSome result (λ r. length r.now < length octets.now) }
{
    let Some((parts, rest)) = short_value(octets, 0x30) else {
        return None;
    };
    let Some((bits, behind)) = short_value(parts, 0x03) else {
        return None;
    };
    let Some((unused, used)) = bits.split_first() else {
        return None;
    };
    if used.len() > 16 || !BitString::is_legal(*unused, used) {
        return None;
    }
    let size = used.len() as u8 * 8 - *unused;
    let Some(max_length) = short_max_length(behind) else {
        return None;
    };
    if !fits(family, size, max_length) {
        return None;
    }
    Some(rest)
}

/// The maximum length, where there is an INTEGER: one below 2^8.
fn take_max_length(cons: &mut Constructed<'_>) -> Result<Option<u8>, DecodeError>
    ensures { parsed (λ x. x) result (left cons.new) ≡ max_length_at (left cons.old) }
{
    if !has_tag(cons, Tag::INTEGER) {
        return Ok(None);
    }
    let length = take_u8(cons)?;
    Ok(Some(length))
}

/// Moves past a prefix of the family.
#[inline(never)]
#[tactic(auto, unfolding(crate::specs::RoaView::prefix_at))]
fn skip_prefix(cons: &mut Constructed<'_>, family: AddressFamily) -> Result<(), DecodeError>
    ensures reads { parsed (λ x. x) result (left cons.new) ≡ prefix_at (width family) (left cons.old) }
    ensures moves { Moves (left cons.old) (left cons.new) result }
{
    let mut after = *cons;
    let mut contents = take_sequence(&mut after)?;
    let bits = take_bits(&mut contents)?;
    let max_length = take_max_length(&mut contents)?;
    finish(contents)?;
    if !bits_fit(family, bits.unused(), bits.octet_slice(), max_length) {
        return Err(DecodeError::content("invalid prefix"));
    }
    *cons = after;
    Ok(())
}

/// Reads a prefix of the family.
#[derive(Drop)]
struct PrefixStep {
    /// The family.
    family: AddressFamily,
}

impl Step for PrefixStep {
    type State = ();

    ghost next_at = { λ x _. prefix_at (width x.family) };

    #[inline(always)]
    fn next(&self, _: (), cons: &mut Constructed<'_>) -> Result<(), DecodeError> {
        match after_short_prefix(cons.rest(), self.family) {
            Some(following) => {
                *cons = Constructed::from_slice(following);
                Ok(())
            }
            None => {
                let mut after = *cons;
                skip_prefix(&mut after, self.family)?;
                *cons = after;
                Ok(())
            }
        }
    }
}

/// How many prefixes of the family there are, which are the whole rest: one at least.
#[tactic(auto, unfolding(crate::specs::RoaView::count_at))]
pub(crate) fn count_prefixes(
    contents: Constructed<'_>,
    family: AddressFamily,
) -> Result<usize, DecodeError>
    ensures { kinds result ≡ count_at (width family) (left contents.entry) }
{
    let (_, count) = fold(contents, (), &PrefixStep { family })?;
    if count == 0 {
        return Err(DecodeError::content("no prefixes"));
    }
    Ok(count)
}
