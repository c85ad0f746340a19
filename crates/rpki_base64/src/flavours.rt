//! Octets as base 64 text (RFC 4648 sections 4 and 5), in the three flavours of the RPKI's protocols.
//!
//! A call that allocates may return an allocation failure before it reads the text.

ghost use Rattle.std.specs.Prelude.{◌≡◌, false, Some, Ok, length, IfOk, IfErr, OnOk, string_bytes};
ghost use Rattle.std.specs.Io.KnownBytes.{Appends};
ghost use Rattle.std.specs.List.{prefix_len};
ghost use Rattle.std.specs.Str.{is_utf8};
ghost use Rattle.base64.specs.Engines.{standard, url_safe_no_pad_indifferent};
ghost use Rattle.base64.specs.GeneralPurpose.{encode_of, decode_of, decode_slice_of, decoded_bytes_of};
ghost use Rattle.base64.specs.Decode.{IsWrittenOver};
ghost use Rattle.rpki_base64.specs.Base64Text.{without_white_space, is_no_white_space};
ghost use Rattle.rpki_base64.specs.Base64Text.{xml_decode_of, xml_bytes_decode_of, no_text_error};
ghost use Rattle.rpki_base64.specs.Base64Text.{base64_error_text, xml_cause, slurm_text, IsBase64Failure};

use base64::DecodeAllocError;
use base64::display::Base64Display;
use base64::engine::general_purpose::{STANDARD, URL_SAFE_NO_PAD_INDIFFERENT};
pub use base64::{DecodeError, DecodeSliceError};
use rpki_der::write_whole;
use std::alloc::{AllocError, Global};
use std::{fmt, io, str};

/// Why a text was not decoded.
#[derive(Clone, Copy, Debug, PartialEq, Eq, Drop)]
pub enum Base64Error {
    /// The text is not base 64 of this flavour.
    Refused(DecodeError),
    /// Allocation failed.
    OutOfMemory,
}

impl fmt::Display for Base64Error {
    ghost output = { base64_error_text };

    fn fmt<W: fmt::Write>(&self, f: &mut fmt::Formatter<W>) -> fmt::Result {
        match self {
            Base64Error::Refused(error) => write!(f, "{error}"),
            Base64Error::OutOfMemory => f.write_str("out of memory"),
        }
    }
}

impl std::error::Error for Base64Error {}

/// Why a text of an XML document was not decoded.
#[derive(Debug, Drop)]
pub struct XmlDecodeError {
    cause: Base64Error,
}

impl XmlDecodeError {
    /// The error of the decoding.
    pub fn cause(&self) -> &Base64Error
        ensures { result.now ≡ xml_cause self.now }
    {
        &self.cause
    }
}

impl fmt::Display for XmlDecodeError {
    ghost output = { λ e. base64_error_text (xml_cause e) };

    fn fmt<W: fmt::Write>(&self, f: &mut fmt::Formatter<W>) -> fmt::Result {
        write!(f, "{}", self.cause)
    }
}

impl std::error::Error for XmlDecodeError {}

/// Base 64 in XML documents: the standard alphabet with padding (RFC 4648 section 4), and white space anywhere: space,
/// tab, line feed, form feed, carriage return.
#[derive(Drop)]
pub struct Xml;

impl Xml {
    /// The octets that the text stands for, read without its ASCII white space.
    ///
    /// Returns the cause `Refused` if the rest is not base 64, with the offset counted without the white space, and the
    /// cause `OutOfMemory` if allocation fails.
    pub fn decode(self, alloc: Global, text: &str) -> Result<Vec<u8>, XmlDecodeError>
        ensures ok { IfOk result (λ v. xml_decode_of text.now ≡ Ok v.items) }
        ensures err { IfErr result (λ e. IsBase64Failure (xml_decode_of text.now) (xml_cause e)) }
    {
        match decode_without_white_space(alloc, text.as_bytes()) {
            Ok(octets) => Ok(octets),
            Err(cause) => Err(XmlDecodeError { cause }),
        }
    }

    /// The octets that a text stands for, which is given in octets.
    ///
    /// The errors are those of `decode`; if the octets are not UTF-8, the cause is that the octet after their longest
    /// prefix in UTF-8 is invalid, its offset counted in the original octets, and nothing is allocated.
    pub fn decode_bytes(self, alloc: Global, bytes: &[u8]) -> Result<Vec<u8>, XmlDecodeError>
        ensures ok { IfOk result (λ v. xml_bytes_decode_of bytes.now ≡ Ok v.items) }
        ensures err { IfErr result (λ e. IsBase64Failure (xml_bytes_decode_of bytes.now) (xml_cause e)) }
        ensures no_text { is_utf8 bytes.now ≡ false
            → IfErr result (λ e. xml_cause e ≡ Base64Error.Refused (no_text_error bytes.now)) }
    {
        match str::from_utf8(bytes) {
            Ok(text) => self.decode(alloc, text),
            Err(error) => {
                let offset = error.valid_up_to();
                let cause = Base64Error::Refused(DecodeError::InvalidByte(offset, bytes[offset]));
                Err(XmlDecodeError { cause })
            }
        }
    }

    /// The octets as text, with padding.
    ///
    /// Returns `AllocError` if allocation fails.
    pub fn encode(self, alloc: Global, bytes: &[u8]) -> Result<String, AllocError>
        ensures { IfOk result (λ text. string_bytes text ≡ encode_of standard bytes.now) }
    {
        STANDARD.encode(alloc, bytes)
    }
}

/// Base 64 in serialized values: the standard alphabet with padding (RFC 4648 section 4).
#[derive(Drop)]
pub struct Serde;

impl Serde {
    /// The octets that the text stands for.
    ///
    /// Returns `Refused` if it is not base 64 with its padding, and `OutOfMemory` if allocation fails.
    pub fn decode(self, alloc: Global, text: &str) -> Result<Vec<u8>, Base64Error>
        ensures ok { IfOk result (λ v. decode_of standard text.now ≡ Ok v.items) }
        ensures err { IfErr result (λ e. IsBase64Failure (decode_of standard text.now) e) }
    {
        Ok(STANDARD.decode(alloc, text.as_bytes())?)
    }

    /// The octets as text, with padding.
    ///
    /// Returns `AllocError` if allocation fails.
    pub fn encode(self, alloc: Global, bytes: &[u8]) -> Result<String, AllocError>
        ensures { IfOk result (λ text. string_bytes text ≡ encode_of standard bytes.now) }
    {
        STANDARD.encode(alloc, bytes)
    }
}

/// Base 64 in the files of Simplified Local Internet Number Resource Management (SLURM, RFC 8416): the alphabet that is
/// safe in URLs (RFC 4648 section 5), read with padding or without and written without.
#[derive(Drop)]
pub struct Slurm;

impl Slurm {
    /// The octets that the text stands for.
    ///
    /// Returns `Refused` if it is not base 64 of this alphabet, and `OutOfMemory` if allocation fails.
    pub fn decode(self, alloc: Global, text: &str) -> Result<Vec<u8>, Base64Error>
        ensures ok { IfOk result (λ v. decode_of url_safe_no_pad_indifferent text.now ≡ Ok v.items) }
        ensures err { IfErr result (λ e. IsBase64Failure (decode_of url_safe_no_pad_indifferent text.now) e) }
    {
        Ok(URL_SAFE_NO_PAD_INDIFFERENT.decode(alloc, text.as_bytes())?)
    }

    /// Writes the octets that the text stands for to the front of `output`, and returns how many they are. Allocates
    /// nothing.
    ///
    /// Returns `DecodeSliceError::DecodeError` if the text is not base 64 of this alphabet, and
    /// `DecodeSliceError::OutputSliceTooSmall` if there is no room. What `output` then holds is unspecified.
    pub fn decode_slice(self, text: &str, output: &mut [u8]) -> Result<usize, DecodeSliceError>
        ensures value { result ≡ decode_slice_of url_safe_no_pad_indifferent text.now (length output.old) }
        ensures written { OnOk result (IsWrittenOver
            (decoded_bytes_of url_safe_no_pad_indifferent text.now) output.old output.new) }
    {
        URL_SAFE_NO_PAD_INDIFFERENT.decode_slice(text.as_bytes(), output)
    }

    /// The octets as text, without padding.
    ///
    /// Returns `AllocError` if allocation fails.
    pub fn encode(self, alloc: Global, bytes: &[u8]) -> Result<String, AllocError>
        ensures { IfOk result (λ text. string_bytes text ≡ encode_of url_safe_no_pad_indifferent bytes.now) }
    {
        URL_SAFE_NO_PAD_INDIFFERENT.encode(alloc, bytes)
    }

    /// Writes the octets as text, without padding, to `target`. Allocates nothing.
    ///
    /// The first error of the target, of any kind, ends the call and is returned; how much has been written by then is
    /// unspecified.
    pub fn write_encoded_slice<W: io::Write>(self, bytes: &[u8], target: &mut W) -> io::Result<()>
        ensures { OnOk result (Appends (W.contents target.old) (W.contents target.new)
            (encode_of url_safe_no_pad_indifferent bytes.now)) }
    {
        // A chunk of a multiple of three octets needs no padding.
        let mut text = [0u8; 1024];
        for chunk in bytes.chunks(768) {
            let Ok(len) = URL_SAFE_NO_PAD_INDIFFERENT.encode_slice(chunk, &mut text) else {
                unreachable!();
            };
            write_whole(target, &text[..len])?;
        }
        Ok(())
    }

    /// The octets, to be printed as text without padding.
    pub fn display(self, bytes: &[u8]) -> SlurmDisplay<'_>
        ensures { slurm_text result ≡ encode_of url_safe_no_pad_indifferent bytes.entry.now }
    {
        SlurmDisplay { bytes }
    }
}

/// Octets that print as base 64 of the flavour `Slurm`.
#[derive(Drop)]
pub struct SlurmDisplay<'a> {
    bytes: &'a [u8],
}

impl fmt::Display for SlurmDisplay<'_> {
    ghost output = { λ d. Some (slurm_text d) };

    fn fmt<W: fmt::Write>(&self, f: &mut fmt::Formatter<W>) -> fmt::Result {
        Base64Display::new(self.bytes, &URL_SAFE_NO_PAD_INDIFFERENT).fmt(f)
    }
}

impl From<DecodeAllocError> for Base64Error {
    ghost use Rattle.std.specs.Prelude.{◌≡◌};
    ghost use Rattle.rpki_base64.specs.Base64Text.{base64_error};

    ghost from_gives = { λ x e. e ≡ base64_error x };

    fn from(error: DecodeAllocError) -> Base64Error {
        match error {
            DecodeAllocError::DecodeError(error) => Base64Error::Refused(error),
            DecodeAllocError::OutOfMemory => Base64Error::OutOfMemory,
        }
    }
}

/// The octets that the text stands for without its white space.
fn decode_without_white_space(alloc: Global, text: &[u8]) -> Result<Vec<u8>, Base64Error>
    ensures ok { IfOk result (λ v. xml_decode_of text.now ≡ Ok v.items) }
    ensures err { IfErr result (λ e. IsBase64Failure (xml_decode_of text.now) e) }
{
    let Ok(bare) = bare_text(alloc, text) else {
        return Err(Base64Error::OutOfMemory);
    };
    Ok(STANDARD.decode(alloc, bare.as_slice())?)
}

/// How many octets come before the first that is white space.
fn line_len(text: &[u8]) -> usize
    ensures { result ≡ prefix_len is_no_white_space text.now }
{
    let mut len = 0;
    'octets: while len < text.len() {
        if text[len].is_ascii_whitespace() {
            return len;
        }
        len += 1;
    }
    len
}

/// The text without its white space, copied line by line.
fn bare_text(alloc: Global, text: &[u8]) -> Result<Vec<u8>, AllocError>
    ensures { IfOk result (λ v. v.items ≡ without_white_space text.now) }
{
    let mut bare = Vec::with_capacity(alloc, text.len())?;
    let mut rest = text;
    'lines: while !rest.is_empty() {
        let (line, after) = rest.split_at(line_len(rest));
        bare.extend_from_slice(line)?;
        rest = match after.split_first() {
            Some((_, next)) => next,
            None => after,
        };
    }
    Ok(bare)
}
