//! The attributes that the lists of attributes to be left out name.

/// The attribute that a list of attributes to be left out names (RFC 2865, sections 5 and 5.26).
#[derive(Clone, Copy, Debug, PartialEq, Eq)]
pub enum RemovedAttribute {
    /// All attributes of a Type: `"T"`, from 1.
    Kind(u8),
    /// All Vendor-Specific attributes of a vendor: `"26.V"`, at most 16777215.
    Vendor(u32),
    /// Of the Vendor-Specific attributes of a vendor the sub-attributes of a type: `"26.V.T"`, the vendor at most
    /// 16777215 and the type from 1.
    VendorKind(u32, u8),
}
