// Why bits are refused.

/// Why bits are no frame header of a described stream. Of several faults it is the first in reading order; `bit` is the
/// place of the first bit of the field at fault, counted from the first bit of the bytes.
#[derive(Clone, Copy, Debug, PartialEq, Eq)]
pub enum HeaderFault {
    /// The bits do not begin with the frame sync code (RFC 9639, section 9.1).
    Sync,
    /// A code or value that is reserved or forbidden, or a reserved bit that is 1.
    Reserved { bit: u64 },
    /// The coded number has none of its forms (RFC 9639, section 9.1.5).
    Number,
    /// The CRC-8 that the header keeps is not that of its bytes (RFC 9639, section 9.1.8).
    HeaderSum { kept: u8, counted: u8 },
    /// Too few bits are left for a field.
    Short { bit: u64 },
    /// The header is not one of the described stream (our choice).
    Differs { field: HeaderField },
}

/// A field of a header that the stream's description has too.
#[derive(Clone, Copy, Debug, PartialEq, Eq)]
pub enum HeaderField {
    /// Frames a second.
    Rate,
    /// The number of channels.
    Channels,
    /// Bits a sample.
    Depth,
}

/// Why bits are no coded residual. Of several faults it is the first in reading order; `bit` is the place of the first
/// bit of the field or value at fault, counted from the first bit of the bytes.
#[derive(Clone, Copy, Debug, PartialEq, Eq)]
pub enum ResidualFault {
    /// A reserved coding method, or a partition order that does not fit the block (RFC 9639, section 9.2.7).
    Reserved { bit: u64 },
    /// Too few bits are left for a field or value.
    Short { bit: u64 },
    /// A value outside of -2^31 + 1 to 2^31 - 1 (RFC 9639, section 9.2.7.3).
    Range { bit: u64 },
    /// Memory for the values is wanting.
    NoMemory,
}
