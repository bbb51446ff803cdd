// What is known of a config.

/// What the ends of items ask of the config that was last given.
#[derive(Clone, Copy)]
pub(crate) struct Known {
    // It is supported.
    pub(crate) supported: bool,
}
