//! Laws of equality: each function does nothing, and its contract is the law.

ghost use Rattle.std.specs.Prelude.{◌≡◌, ◌↔◌, IsTrue};
ghost use Rattle.rpki_resources.specs.declared.address.Address.{Address as Bits};
ghost use Rattle.rpki_resources.specs.declared.as_read.ParseAsnError.{ParseAsnError as NoNumber};
ghost use Rattle.rpki_resources.specs.declared.as_read.ParseAsBlockError.{ParseAsBlockError as NoNumbers};
ghost use Rattle.rpki_resources.specs.declared.as_text.AsBlock.{AsBlock as NumberBlock};
ghost use Rattle.rpki_resources.specs.declared.as_text.AsRange.{AsRange as Numbers};
ghost use Rattle.rpki_resources.specs.declared.as_text.Asn.{Asn as Number};
ghost use Rattle.rpki_resources.specs.declared.family.AddressFamily.{AddressFamily as Family};
ghost use Rattle.rpki_resources.specs.declared.ip_read.ParseIpBlockError.{ParseIpBlockError as NoAddresses};
ghost use Rattle.rpki_resources.specs.declared.ip_read.ParsePrefixError.{ParsePrefixError as NoPrefix};
ghost use Rattle.rpki_resources.specs.declared.ip_text.AddressRange.{AddressRange as Addresses};
ghost use Rattle.rpki_resources.specs.declared.ip_text.IpBlock.{IpBlock as AddressBlock};
ghost use Rattle.rpki_resources.specs.declared.ip_text.Prefix.{Prefix as SharedBits};
ghost use Rattle.rpki_resources.specs.declared.kind.ResourceKind.{ResourceKind as Kind};
ghost use Rattle.rpki_resources.specs.declared.list_read.ParseBlocksError.{ParseBlocksError as NoBlocks};
ghost use Rattle.rpki_resources.specs.declared.settlement.SettleError.{SettleError as Unsettled};

use crate::address::Address;
use crate::as_read::{ParseAsBlockError, ParseAsnError};
use crate::as_text::{AsBlock, AsRange, Asn};
use crate::family::AddressFamily;
use crate::ip_read::{ParseIpBlockError, ParsePrefixError};
use crate::ip_text::{AddressRange, IpBlock, Prefix};
use crate::kind::ResourceKind;
use crate::list_read::ParseBlocksError;
use crate::settlement::SettleError;

/// AS numbers, addresses, blocks of them, and their kinds, are equal exactly where they are one.
pub fn equal_resources_are_one()
    ensures number { (x y : Number) → IsTrue (⟦<Asn as PartialEq>⟧.eq x y) ↔ (x ≡ y) }
    ensures numbers { (x y : Numbers) → IsTrue (⟦<AsRange as PartialEq>⟧.eq x y) ↔ (x ≡ y) }
    ensures number_block { (x y : NumberBlock) → IsTrue (⟦<AsBlock as PartialEq>⟧.eq x y) ↔ (x ≡ y) }
    ensures family { (x y : Family) → IsTrue (⟦<AddressFamily as PartialEq>⟧.eq x y) ↔ (x ≡ y) }
    ensures bits { (x y : Bits) → IsTrue (⟦<Address as PartialEq>⟧.eq x y) ↔ (x ≡ y) }
    ensures prefix { (x y : SharedBits) → IsTrue (⟦<Prefix as PartialEq>⟧.eq x y) ↔ (x ≡ y) }
    ensures addresses { (x y : Addresses) → IsTrue (⟦<AddressRange as PartialEq>⟧.eq x y) ↔ (x ≡ y) }
    ensures address_block { (x y : AddressBlock) → IsTrue (⟦<IpBlock as PartialEq>⟧.eq x y) ↔ (x ≡ y) }
    ensures kind { (x y : Kind) → IsTrue (⟦<ResourceKind as PartialEq>⟧.eq x y) ↔ (x ≡ y) }
{}

/// Errors of texts and of resources that are settled are equal exactly where they are one.
pub fn equal_errors_are_one()
    ensures number { (d e : NoNumber) → IsTrue (⟦<ParseAsnError as PartialEq>⟧.eq d e) ↔ (d ≡ e) }
    ensures numbers { (d e : NoNumbers) → IsTrue (⟦<ParseAsBlockError as PartialEq>⟧.eq d e) ↔ (d ≡ e) }
    ensures prefix { (d e : NoPrefix) → IsTrue (⟦<ParsePrefixError as PartialEq>⟧.eq d e) ↔ (d ≡ e) }
    ensures addresses { (d e : NoAddresses) → IsTrue (⟦<ParseIpBlockError as PartialEq>⟧.eq d e) ↔ (d ≡ e) }
    ensures blocks { (d e : NoBlocks) → IsTrue (⟦<ParseBlocksError as PartialEq>⟧.eq d e) ↔ (d ≡ e) }
    ensures settled { (d e : Unsettled) → IsTrue (⟦<SettleError as PartialEq>⟧.eq d e) ↔ (d ≡ e) }
{}
