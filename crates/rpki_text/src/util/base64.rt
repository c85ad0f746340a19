//! Octets as base 64 text (RFC 4648 sections 4 and 5), in the three flavours of the RPKI's protocols.

pub use rpki_base64::{
    Base64Error, DecodeError, DecodeSliceError, Serde, Slurm, SlurmDisplay, Xml, XmlDecodeError,
};
