// A law: headers are read exactly where they are spelled.
ghost use Rattle.flac_definitions.specs.HeaderSpelling.{HeadersAreSpelled};

/// Headers are read exactly where they are spelled, with their sum: what is read at the start of bytes is spelled there,
/// and where a header's spelling stands, it is read (RFC 9639, section 9.1).
pub fn headers_are_spelled()
    ensures { HeadersAreSpelled }
{}
