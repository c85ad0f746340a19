//! Laws of the definitions.

ghost use Rattle.std.specs.Prelude.{◌≡◌, ◌↔◌, ◌++◌, List, IsTrue};
ghost use Rattle.std.specs.Net.Text.{ip_text};
ghost use Rattle.rpki_resources.specs.Equal.{same_blocks};
ghost use Rattle.rpki_resources.specs.AsRead.{IsAsBlockText};
ghost use Rattle.rpki_resources.specs.Encoded.{AreBlocksOf};
ghost use Rattle.rpki_resources.specs.Text.{as_block_text, prefix_text, range_text, IsAsBlockOf};
ghost use Rattle.rpki_resources.specs.IpRead.{IsPrefixText, IsIpBlockText, IsWholePrefix, IsWholeRange};
ghost use Rattle.rpki_resources.specs.declared.family.AddressFamily.{AddressFamily};
ghost use Rattle.rpki_resources.specs.declared.ip_text.IpBlock.{IpBlock};
ghost use Rattle.rpki_resources.specs.declared.ip_text.AddressRange.{AddressRange};
ghost use Rattle.rpki_resources.specs.declared.ip_text.IpBlock.TheVariants.{Range as RangeBlock};
ghost use Rattle.rpki_resources.specs.declared.ip_text.Prefix.{Prefix};
ghost use Rattle.rpki_resources.specs.declared.as_text.AsBlock.{AsBlock};
ghost use Rattle.rpki_resources.specs.InPlace.{Octets, Holds};
ghost use Rattle.rpki_resources.specs.declared.choice.ResourcesChoice.{ResourcesChoice};
ghost use Rattle.rpki_resources.specs.ListText.{blocks_text};
ghost use Rattle.rpki_resources.specs.ListRead.{AreWholeBlocks, ip_list_text, IsBlocksText};
ghost use Rattle.rpki_resources.specs.declared.kind.ResourceKind.TheVariants.{Addresses, AsNumbers};
ghost use Rattle.rpki_resources.specs.Settled.{SettlesDown, SettlesThrough};
ghost use Rattle.rpki_resources.specs.declared.block.Block.{Block};
ghost use Rattle.rpki_resources.specs.Blocks.{IsSubset, AreCanonical};

/// A set has one list of blocks in canonical form.
pub fn canonical_lists_are_sets()
    ensures { (xs ys : List Block) → AreCanonical xs → AreCanonical ys → IsSubset xs ys → IsSubset ys xs → xs ≡ ys }
{}

/// Down a chain nobody has more than an issuer above: what a chain settles, from any certificate in it on, is within
/// what that certificate has.
pub fn chains_settle_within()
    ensures { (top bottom : List Block) (choices : List ResourcesChoice) → SettlesDown top choices bottom
        → IsSubset bottom top }
{}

/// A chain is settled link by link: what the upper part of it settles is what the lower part begins with.
pub fn chains_join()
    ensures { (top bottom : List Block) (upper lower : List ResourcesChoice)
        → SettlesDown top (upper ++ lower) bottom ↔ SettlesThrough top upper lower bottom }
{}

/// The text that is written of a block of AS numbers is read back, as that block.
pub fn as_blocks_are_read_back()
    ensures { (a : AsBlock) (b : Block) → IsAsBlockOf a b → IsAsBlockText (as_block_text a) a }
{}

/// The text that is written of a prefix is read back, as that prefix, where no bit of its address is 1 but those that
/// are shared.
pub fn prefixes_are_read_back()
    ensures { (p : Prefix) → IsWholePrefix p → IsPrefixText (prefix_text (ip_text p.addr) p.len) p }
{}

/// The text that is written of a range of addresses is read back, as that range, where it is no prefix and goes from an
/// address to one of its family that is not below it.
pub fn address_ranges_are_read_back()
    ensures { (r : AddressRange) → IsWholeRange r
        → IsIpBlockText (range_text (ip_text r.min) (ip_text r.max)) (RangeBlock r) }
{}

/// Blocks that were read in place have numbers of their kind.
pub fn held_blocks_are_of_their_kind()
    ensures { (x : Octets) (bs : List Block) → Holds x bs → AreBlocksOf x.kind bs }
{}

/// What `==` says of two sets: they have the same numbers.
pub fn equal_blocks_are_one_set()
    ensures { (xs ys : List Block) → AreCanonical xs → AreCanonical ys
        → IsTrue (same_blocks xs ys) ↔ (IsSubset xs ys × IsSubset ys xs) }
{}

/// The text that is written of a set of AS numbers is read back, as that set.
pub fn as_lists_are_read_back()
    ensures { (bs : List Block) → AreCanonical bs → AreBlocksOf AsNumbers bs
        → IsBlocksText AsNumbers (blocks_text AsNumbers bs) bs }
{}

/// The text that is written of blocks of addresses of one family is read back, as the set of their numbers.
pub fn address_lists_are_read_back()
    ensures { (family : AddressFamily) (xs : List IpBlock) (bs : List Block) → AreWholeBlocks family xs bs
        → IsBlocksText (Addresses family) (ip_list_text xs) bs }
{}
