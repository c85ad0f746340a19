//! Laws of headers, of values, of their members and of leaves: each function does nothing, and its contract is the law.

ghost use Rattle.std.specs.Prelude.{◌↔◌, ◌≡◌, ◌≢◌, ◌<◌, ◌^◌, ◌*◌, ◌≤◌, ◌⊎◌, ℕ, List, [], ◌∷◌, ◌++◌, length};
ghost use Rattle.rpki_der.specs.LeafLaws.{NullReadBack, BooleansReadBack, NumbersReadBack, IdentifiersReadBack};
ghost use Rattle.rpki_der.specs.LeafLaws.{OctetsReadBack, BitsReadBack, BooleansApart, NumbersApart, IdentifiersApart};
ghost use Rattle.rpki_der.specs.LeafLaws.{OctetsApart, BitsApart};
ghost use Rattle.rpki_der.specs.Reading.{Spells, Accepts};
ghost use Rattle.rpki_der.specs.Number.{AreOctets};
ghost use Rattle.rpki_der.specs.Header.{identifier_octets, length_octets, tlv};
ghost use Rattle.rpki_der.specs.ShortestForm.{IsLengthForm, IsIdentifierForm};
ghost use Rattle.rpki_der.specs.Contents.{null_contents, bits_contents};
ghost use Rattle.rpki_der.specs.Values.{SpellsHeader, IsHeaderFault, IsContentsFault, IsLeafFault};
ghost use Rattle.rpki_der.specs.WantedValue.{IsWantedFault, IsAnyTag, IsTagged};
ghost use Rattle.rpki_der.specs.Leaves.{Bits, IsNull, IsBoolean, IsOidOf, IsBits, boolean_contents};
ghost use Rattle.rpki_der.specs.Integer.{IsUnsigned, IsUnsignedBelow, unsigned_contents};
ghost use Rattle.rpki_der.specs.Text.{IsPrintableText, IsUtf8Text, IsIa5Text};
ghost use Rattle.rpki_der.specs.DefaultFalse.{IsTrueFault};
ghost use Rattle.rpki_der.specs.Error.{HasOneKind, HasOneError};
ghost use Rattle.std.specs.Prelude.{Bool, Option, false};
ghost use Rattle.rpki_der.specs.TagName.{TagName, IsTag, boolean, integer, bit_string, octet_string, null, oid};
ghost use Rattle.rpki_der.specs.TagName.{utf8_string, printable_string, ia5_string, named_tags};
ghost use Rattle.rpki_der.specs.Members.{Members, spell, HaveHeaders, IsValue, IsValueOf, SpellsValue};
ghost use Rattle.rpki_der.specs.NestedFault.{IsNestedFault};
ghost use Rattle.rpki_der.specs.declared.error.DecodeError.{DecodeError};
ghost use Rattle.rpki_der.specs.declared.error.DecodeError.TheVariants.{Truncated, BadTag, BadLength};
ghost use Rattle.rpki_der.specs.declared.tag.Header.{Header};

use crate::bit_string::BitString;
use crate::encode::{Primitive, PrimitiveContent, Values};
use crate::integer::Unsigned;
use crate::oid::{ConstOid, Oid};
use crate::tag::Tag;

/// Length octets are those of X.690: the definite form, in as few octets as can be.
pub fn lengths_in_shortest_form()
    ensures { (n : ℕ) (p : List ℕ) → n < 2 ^ 32 → (p ≡ length_octets n) ↔ IsLengthForm n p }
{}

/// Identifier octets are those of X.690: a tag number of 31 or more in as few octets as can be.
pub fn identifiers_in_shortest_form()
    ensures { (t : TagName) (f : Bool) (p : List ℕ) → IsTag t → (p ≡ identifier_octets t f) ↔ IsIdentifierForm t f p }
{}

/// A list of octets begins with at most one header.
pub fn one_header()
    ensures { (s : List ℕ) (h k : Header) (r q : List ℕ) → Spells SpellsHeader s h r → Spells SpellsHeader s k q
        → (h ≡ k) × (r ≡ q) }
{}

/// Octets that no header begins have one fault at most.
pub fn one_fault()
    ensures { HasOneError IsHeaderFault }
{}

/// Errors are unique: each reader of values by their tag and form, and each reader of leaves, has at most one error for
/// given octets. For a leaf whose contents are malformed the kind is unique; its text is the reader's.
pub fn one_refusal()
    ensures values { (t : TagName) (f : Bool) → HasOneError (IsContentsFault t f) }
    ensures flat { HasOneError (IsWantedFault IsAnyTag) }
    ensures tagged { (t : TagName) → HasOneError (IsWantedFault (IsTagged t)) }
    ensures nulls { HasOneKind (IsLeafFault null false IsNull) }
    ensures booleans { HasOneKind (IsLeafFault boolean false IsBoolean) }
    ensures numbers { HasOneKind (IsLeafFault integer false IsUnsigned) }
    ensures identifiers { HasOneKind (IsLeafFault oid false IsOidOf) }
    ensures bits { HasOneKind (IsLeafFault bit_string false IsBits) }
    ensures printable { HasOneKind (IsLeafFault printable_string false IsPrintableText) }
    ensures utf8 { HasOneKind (IsLeafFault utf8_string false IsUtf8Text) }
    ensures ia5 { HasOneKind (IsLeafFault ia5_string false IsIa5Text) }
    ensures small { (bound : ℕ) → HasOneKind (IsLeafFault integer false (IsUnsignedBelow bound)) }
    ensures written { HasOneKind IsTrueFault }
{}

/// Octets are one list of members at most, at every depth.
pub fn one_list_of_members()
    ensures { (vs ws : Members) → HaveHeaders vs → HaveHeaders ws → spell vs ≡ spell ws → vs ≡ ws }
{}

/// No proper prefix of a value is a value.
pub fn no_value_begins_a_value()
    ensures { (value other rest : List ℕ) → IsValue value → IsValue other → value ≡ other ++ rest → rest ≡ [] }
{}

/// Each header takes two octets or more.
pub fn two_octets_a_header()
    ensures { (value : List ℕ) (n : ℕ) → IsValueOf n value → 2 * n ≤ length value }
{}

/// Octets have at most one fault.
pub fn one_nested_fault()
    ensures { HasOneError IsNestedFault }
{}

/// Octets that no value begins have a fault, where there are any.
pub fn a_fault_where_no_value_begins()
    ensures { (s : List ℕ) → AreOctets s → s ≢ [] → ((value rest : List ℕ) → IsValue value → s ≡ value ++ rest → ⊥)
        → (e : DecodeError) × IsNestedFault s e }
{}

/// Octets with a fault begin with no value.
pub fn no_value_at_a_fault()
    ensures { (s value rest : List ℕ) (e : DecodeError) → IsNestedFault s e → IsValue value → s ≡ value ++ rest → ⊥ }
{}

/// Every proper prefix of a value is truncated, except the empty one.
pub fn cut_value_is_truncated()
    ensures { (s more : List ℕ) (b : ℕ) → s ≢ [] → IsValue (s ++ b ∷ more) → IsNestedFault s Truncated }
{}

/// The fault is one of three kinds.
pub fn nested_fault_kinds()
    ensures { (s : List ℕ) (e : DecodeError) → IsNestedFault s e → (e ≡ Truncated) ⊎ (e ≡ BadTag) ⊎ (e ≡ BadLength) }
{}

/// The encoding of a leaf value is read as the value that was written.
pub fn leaves_read_back()
    ensures null { NullReadBack }
    ensures booleans { BooleansReadBack }
    ensures numbers { NumbersReadBack }
    ensures identifiers { IdentifiersReadBack }
    ensures octets { OctetsReadBack }
    ensures bits { BitsReadBack }
{}

/// A captured value is read back as itself, whatever follows: no other prefix of the octets is a value.
pub fn values_read_back()
    ensures { (value rest : List ℕ) → IsValue value → Accepts SpellsValue (value ++ rest) value rest }
{}

/// Leaf values have the same encoding exactly where they are equal. NULL is one value.
pub fn leaves_written_the_same()
    ensures null { (a b : Unit {0}) → (tlv null false (null_contents a) ≡ tlv null false (null_contents b)) ↔ (a ≡ b) }
    ensures booleans { BooleansApart }
    ensures numbers { NumbersApart }
    ensures identifiers { IdentifiersApart }
    ensures octets { OctetsApart }
    ensures bits { BitsApart }
{}

/// The tags that have names are these (X.680 8.4; RFC 5280 4.2.1.6).
pub fn tag_constants() -> [Tag; 14]
    ensures { result ≡ named_tags }
{
    [
        Tag::BOOLEAN,
        Tag::INTEGER,
        Tag::BIT_STRING,
        Tag::OCTET_STRING,
        Tag::NULL,
        Tag::OID,
        Tag::UTF8_STRING,
        Tag::SEQUENCE,
        Tag::SET,
        Tag::PRINTABLE_STRING,
        Tag::IA5_STRING,
        Tag::UTC_TIME,
        Tag::GENERALIZED_TIME,
        Tag::CTX_6,
    ]
}

/// The tags that `TAG` names of NULL, BOOLEAN, OBJECT IDENTIFIER, OCTET STRING, BIT STRING, owned and borrowed, and
/// INTEGER: those under which `encode` writes them.
pub fn content_tags() -> [Tag; 7]
    ensures { result ≡ null ∷ boolean ∷ oid ∷ octet_string ∷ bit_string ∷ bit_string ∷ integer ∷ [] }
{
    [
        <()>::TAG,
        <bool>::TAG,
        <ConstOid>::TAG,
        <&'static [u8]>::TAG,
        <BitString>::TAG,
        <&'static BitString>::TAG,
        <Unsigned<'static>>::TAG,
    ]
}

/// What is written of borrowed octets is an OCTET STRING of them (X.690 8.7).
pub fn octets_that_are_written<'a>(octets: &'a [u8]) -> Primitive<&'a [u8]>
    ensures { ⟦<Primitive<&'static [u8]> as Values>⟧.encoded result ≡ tlv octet_string false octets.now }
{
    octets.encode()
}

/// What is written of identifiers and numbers that borrow their octets is the contents that X.690 gives them (8.3,
/// 8.19).
pub fn borrowed_contents_that_are_written(identifier: &Oid<&[u8]>, number: &Unsigned<'_>)
    ensures identifier { ⟦<Oid<&'static [u8]> as PrimitiveContent>⟧.contents identifier.now ≡ identifier.now.0.now }
    ensures number { ⟦<Unsigned<'static> as PrimitiveContent>⟧.contents number.now ≡ unsigned_contents number.now }
{}

/// What is written of leaf values is the contents that X.690 gives them (8.2, 8.6, 8.8, 11.1).
pub fn contents_that_are_written()
    ensures null { (v : Unit {0}) → ⟦<() as PrimitiveContent>⟧.contents v ≡ null_contents v }
    ensures booleans { (b : Bool) → ⟦<bool as PrimitiveContent>⟧.contents b ≡ boolean_contents b }
    ensures bits { (b : Bits) → ⟦<BitString as PrimitiveContent>⟧.contents b ≡ bits_contents b }
{}
