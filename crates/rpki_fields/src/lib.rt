//! What is shown of the objects of a repository of the RPKI: certificates, revocation lists, and signed objects.
//!
//! [ObjectType::of] tells by the octets of a file which kind of object it is, [Object::decode] reads it, and
//! [Object::sheet] makes a [Sheet] of it: fields, and the items that it lists. [Form::render] makes text or JSON of
//! that.
#![tactic(auto)]

mod access_text;
mod algorithm;
mod algorithm_text;
mod anchor_keys_text;
mod card_text;
mod cert_text;
mod checklist_text;
mod extension_text;
mod field;
mod identifier;
mod key_size;
pub mod laws;
mod list_text;
mod locator_text;
mod manifest_text;
mod memory;
mod name;
mod object;
mod object_type;
mod origin_text;
mod other_cert;
mod other_cert_text;
mod other_text;
mod part;
mod part_text;
mod provider_text;
mod record;
mod rendering;
mod resource_items;
mod resource_text;
mod sheet;
mod signed_text;
mod uri_text;
mod value;
mod visible_text;

pub use algorithm::{Algorithm, OtherKey};
pub use cert_text::fields;
pub use field::{Field, push_field, push_field_if, push_number};
pub use identifier::push_identifier;
pub use locator_text::locator_sheet;
pub use name::{after, name_text};
pub use object::Object;
pub use object_type::ObjectType;
pub use other_cert::{OtherCert, OtherTbs};
pub use part::Part;
pub use part_text::text_of_part;
pub use rendering::Form;
pub use sheet::{Item, Listing, Sheet};
pub use value::{colon_digits, hex_digits, hex_pair, push_digits, serial_text, time_text};
