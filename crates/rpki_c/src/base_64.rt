//! Base 64 (RFC 4648 4 and 5), in the three flavours of the RPKI's protocols.

ghost use Rattle.std.specs.Prelude.{◌≡◌, ◌≤◌, false, length, Ok, IfOk, IfErr};
ghost use Rattle.std.specs.Str.{is_utf8};
ghost use Rattle.base64.specs.Engines.{standard, url_safe_no_pad_indifferent};
ghost use Rattle.base64.specs.GeneralPurpose.{decode_of, encode_of};
ghost use Rattle.rpki_base64.specs.declared.flavours.Base64Error.TheVariants.{Refused};
ghost use Rattle.rpki_base64.specs.Base64Text.{IsBase64Failure, xml_decode_of, xml_bytes_decode_of, no_text_error};
ghost use Rattle.rpki_c.specs.Base64.{encoded_of, decoded_of, base64_number, base64_place, IsDecodedTo, IsDecoded};
ghost use Rattle.rpki_c.specs.Base64.{most_short};
ghost use Rattle.rpki_c.specs.Stored.{IsStored};

use crate::status::{
    INVALID_LAST_SYMBOL, INVALID_LENGTH, INVALID_PADDING, INVALID_SYMBOL, OUT_OF_MEMORY, TOO_SMALL,
};
use crate::stored::store;
use base64::engine::GeneralPurpose;
use base64::engine::general_purpose::{STANDARD, URL_SAFE_NO_PAD_INDIFFERENT};
use base64::{EncodeSliceError, encoded_len};
use rpki_text::util::base64::{Base64Error, DecodeError, Xml};
use std::alloc::Global;
use std::str;

/// Writes the text that an engine makes of the octets to the front of the buffer, and tells how many characters it has.
///
/// The status is as that of [store].
fn store_encoded(engine: &GeneralPurpose, octets: &[u8], out: &mut [u8], written: &mut usize) -> u8
    ensures { IsStored (encode_of engine.now octets.now) result out.old out.new written.new }
{
    let Some(len) = encoded_len(octets.len(), engine.config().encode_padding()) else {
        unreachable!();
    };
    *written = len;
    match engine.encode_slice(octets, out) {
        Ok(_) => 0,
        Err(EncodeSliceError::OutputSliceTooSmall) => TOO_SMALL,
    }
}

// An engine's tables are laid out on the stack where a function that names it begins: so each is named by a function of
// its own, which isn't put into its callers.

/// The same with the standard alphabet and padding.
#[inline(never)]
fn store_standard(octets: &[u8], out: &mut [u8], written: &mut usize) -> u8
    ensures { IsStored (encode_of standard octets.now) result out.old out.new written.new }
{
    store_encoded(&STANDARD, octets, out, written)
}

/// The same with the alphabet that is safe in URLs, and no padding.
#[inline(never)]
fn store_url_safe(octets: &[u8], out: &mut [u8], written: &mut usize) -> u8
    ensures { IsStored (encode_of url_safe_no_pad_indifferent octets.now) result out.old out.new written.new }
{
    store_encoded(&URL_SAFE_NO_PAD_INDIFFERENT, octets, out, written)
}

/// Writes the text of the octets in base 64 to the front of the buffer: with the standard alphabet and padding, or with
/// the one that is safe in URLs and none. Allocates nothing.
///
/// The status is 0; `TOO_SMALL` where the buffer is shorter, and nothing is written to it; in both cases `written` is
/// the count of the characters.
#[unsafe(no_mangle)]
pub extern "C" fn rpki_base64_write(
    octets: &[u8],
    url_safe: bool,
    out: &mut [u8],
    written: &mut usize,
) -> u8
    ensures { IsStored (encoded_of url_safe octets.now) result out.old out.new written.new }
{
    if url_safe {
        store_url_safe(octets, out, written)
    } else {
        store_standard(octets, out, written)
    }
}

/// The octets of a text of base 64 in XML documents.
fn xml_octets(alloc: Global, text: &[u8]) -> Result<Vec<u8>, Base64Error>
    ensures ok { IfOk result (λ v. xml_bytes_decode_of text.now ≡ Ok v.items) }
    ensures err { IfErr result (λ e. IsBase64Failure (xml_bytes_decode_of text.now) e) }
    ensures no_text { is_utf8 text.now ≡ false → IfErr result (λ e. e ≡ Refused (no_text_error text.now)) }
{
    match Xml.decode_bytes(alloc, text) {
        Ok(octets) => Ok(octets),
        Err(e) => Err(*e.cause()),
    }
}

/// The octets of a text of base 64 in serialized values.
fn serde_octets(alloc: Global, text: &[u8]) -> Result<Vec<u8>, Base64Error>
    ensures ok { IfOk result (λ v. decode_of standard text.now ≡ Ok v.items) }
    ensures err { IfErr result (λ e. IsBase64Failure (decode_of standard text.now) e) }
{
    Ok(STANDARD.decode(alloc, text)?)
}

/// The octets of a text of base 64 in files of SLURM.
fn slurm_octets(alloc: Global, text: &[u8]) -> Result<Vec<u8>, Base64Error>
    ensures ok { IfOk result (λ v. decode_of url_safe_no_pad_indifferent text.now ≡ Ok v.items) }
    ensures err { IfErr result (λ e. IsBase64Failure (decode_of url_safe_no_pad_indifferent text.now) e) }
{
    Ok(URL_SAFE_NO_PAD_INDIFFERENT.decode(alloc, text)?)
}

/// The octets of a text in the flavour of this number.
fn decoded(alloc: Global, text: &[u8], flavour: u8) -> Result<Vec<u8>, Base64Error>
    ensures ok { IfOk result (λ v. decoded_of flavour text.now ≡ Ok v.items) }
    ensures err { IfErr result (λ e. IsBase64Failure (decoded_of flavour text.now) e) }
    ensures no_text { flavour ≡ 0 → is_utf8 text.now ≡ false
        → IfErr result (λ e. e ≡ Refused (no_text_error text.now)) }
{
    match flavour {
        0 => xml_octets(alloc, text),
        1 => serde_octets(alloc, text),
        _ => slurm_octets(alloc, text),
    }
}

/// The status of a text that is not base 64.
fn base64_number(e: &DecodeError) -> u8
    ensures { result ≡ base64_number e.now }
{
    match e {
        DecodeError::InvalidByte(..) => INVALID_SYMBOL,
        DecodeError::InvalidLength(_) => INVALID_LENGTH,
        DecodeError::InvalidLastSymbol { .. } => INVALID_LAST_SYMBOL,
        DecodeError::InvalidPadding => INVALID_PADDING,
    }
}

/// Where the text is not base 64; its length where the padding is wrong.
fn base64_place(e: &DecodeError, len: usize) -> usize
    ensures { result ≡ base64_place e.now len }
{
    match e {
        DecodeError::InvalidByte(at, _) => *at,
        DecodeError::InvalidLength(at) => *at,
        DecodeError::InvalidLastSymbol { offset, .. } => *offset,
        DecodeError::InvalidPadding => len,
    }
}

/// The most characters of a text that is read without memory.
const SHORT: usize = 128;

/// Writes the octets that an engine makes of a short text to the front of the buffer, and tells how many they are.
/// Allocates nothing.
///
/// The status is as that of [store], or why the text is not base 64; then `at` is where, in a text of `len` characters.
fn store_short(
    engine: &GeneralPurpose,
    text: &[u8],
    len: usize,
    out: &mut [u8],
    written: &mut usize,
    at: &mut usize,
) -> u8
    requires { length text.now ≤ most_short }
    ensures { IsDecodedTo (decode_of engine.now text.now) len result out.old out.new written.old written.new
        at.old at.new }
{
    let mut octets = [0; SHORT / 4 * 3];
    match engine.decode_slice_unchecked(text, &mut octets) {
        Ok(count) => store(&octets[..count], out, written),
        Err(e) => {
            *at = base64_place(&e, len);
            base64_number(&e)
        }
    }
}

/// The same with the standard alphabet and padding.
#[inline(never)]
fn store_short_standard(
    text: &[u8],
    len: usize,
    out: &mut [u8],
    written: &mut usize,
    at: &mut usize,
) -> u8
    requires { length text.now ≤ most_short }
    ensures { IsDecodedTo (decode_of standard text.now) len result out.old out.new written.old written.new
        at.old at.new }
{
    store_short(&STANDARD, text, len, out, written, at)
}

/// The same with the alphabet that is safe in URLs, and with padding or without.
#[inline(never)]
fn store_short_slurm(text: &[u8], out: &mut [u8], written: &mut usize, at: &mut usize) -> u8
    requires { length text.now ≤ most_short }
    ensures { IsDecodedTo (decode_of url_safe_no_pad_indifferent text.now) (length text.now) result out.old out.new
        written.old written.new at.old at.new }
{
    store_short(
        &URL_SAFE_NO_PAD_INDIFFERENT,
        text,
        text.len(),
        out,
        written,
        at,
    )
}

/// The same of a short text of an XML document: what is read is the text without its white space.
#[inline(never)]
fn store_short_xml(text: &[u8], out: &mut [u8], written: &mut usize, at: &mut usize) -> u8
    requires { length text.now ≤ most_short }
    ensures { IsDecodedTo (xml_decode_of text.now) (length text.now) result out.old out.new written.old written.new
        at.old at.new }
{
    let mut bare = [0; SHORT];
    let mut count = 0;
    for octet in text {
        if !octet.is_ascii_whitespace() {
            bare[count] = *octet;
            count += 1;
        }
    }
    store_short_standard(&bare[..count], text.len(), out, written, at)
}

/// The same of a short text of an XML document in octets, which may not be UTF-8.
fn store_short_bytes(text: &[u8], out: &mut [u8], written: &mut usize, at: &mut usize) -> u8
    requires { length text.now ≤ most_short }
    ensures { IsDecodedTo (xml_bytes_decode_of text.now) (length text.now) result out.old out.new written.old
        written.new at.old at.new }
{
    match str::from_utf8(text) {
        Ok(_) => store_short_xml(text, out, written, at),
        Err(error) => {
            *at = error.valid_up_to();
            INVALID_SYMBOL
        }
    }
}

/// The same of a short text in the flavour of this number.
fn store_short_of(
    text: &[u8],
    flavour: u8,
    out: &mut [u8],
    written: &mut usize,
    at: &mut usize,
) -> u8
    requires { length text.now ≤ most_short }
    ensures { IsDecodedTo (decoded_of flavour text.now) (length text.now) result out.old out.new written.old
        written.new at.old at.new }
{
    match flavour {
        0 => store_short_bytes(text, out, written, at),
        1 => store_short_standard(text, text.len(), out, written, at),
        _ => store_short_slurm(text, out, written, at),
    }
}

/// Writes the octets of a text in base 64 to the front of the buffer. Flavour 0 is that of XML documents: the standard
/// alphabet with padding, and white space, which is not counted; 1 that of serialized values: the same without white
/// space; another one that of SLURM files: the alphabet that is safe in URLs, with padding or without.
///
/// The status is 0; `TOO_SMALL` where the buffer is shorter, and nothing is written to it; in both cases `written` is
/// the count of the octets. Else it says why the text is not base 64, and `at` where; or it is `OUT_OF_MEMORY`, and
/// nothing is written. Allocates nothing for a text of at most 128 characters, nor for one of XML that is not UTF-8.
#[unsafe(no_mangle)]
pub extern "C" fn rpki_base64_read(
    alloc: Global,
    text: &[u8],
    flavour: u8,
    out: &mut [u8],
    written: &mut usize,
    at: &mut usize,
) -> u8
    ensures { IsDecoded text.now flavour result out.old out.new written.old written.new at.old at.new }
{
    if text.len() <= SHORT {
        return store_short_of(text, flavour, out, written, at);
    }
    match decoded(alloc, text, flavour) {
        Ok(octets) => store(octets.as_slice(), out, written),
        Err(Base64Error::OutOfMemory) => OUT_OF_MEMORY,
        Err(Base64Error::Refused(e)) => {
            *at = base64_place(&e, text.len());
            base64_number(&e)
        }
    }
}
