// Laws: what is written is read again.
ghost use Rattle.flac_write.specs.HeaderLaws.{WrittenHeadersAreRead};

use flac_frame::headers_are_spelled;

/// What `write_header` writes spells the header, and where it stands at the start of bytes, the header is read (RFC
/// 9639, section 9.1).
pub fn written_headers_are_read()
    ensures { WrittenHeadersAreRead }
{
    headers_are_spelled()
}
