// What is known of steps that were read.
ghost use Rattle.script_steps.specs.Soundness.{StepsAreSound};
ghost use Rattle.script_steps.specs.Within.{StepsAreWithin};

/// Nothing in a step that was read is at fault, it holds no more than its inline data, and the files mentioned with it are
/// those before it and at most one more, no two of one name.
pub fn steps_are_sound()
    ensures { StepsAreSound }
{}

/// What a step that was read holds is within its types: rates, channels, sizes and counts of frames have 32 bits, durations 64,
/// timestamps 64 with their sign, and what its chunk, its audio data or its frame holds is bytes.
pub fn steps_are_within()
    ensures { StepsAreWithin }
{}
