// Laws of descriptions.
ghost use Rattle.flac_description.specs.Laws.{DescriptionsAreSpelled};

/// Bytes are read as a description exactly where they spell it, with any mark of the last block, and its rate and its depth
/// are those of sound (RFC 9639, section 8.2): each that was read can be written, and each that was written is read.
pub fn descriptions_are_spelled()
    ensures { DescriptionsAreSpelled }
{}
