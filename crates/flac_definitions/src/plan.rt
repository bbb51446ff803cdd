// Plans of residuals.

/// How a residual is cut and coded (RFC 9639, section 9.2.7): the partition order, the parameter of each part, and how
/// many bits the coded residual has with them, its first 6 bits among them.
#[derive(Drop)]
pub struct RicePlan {
    pub partition: u32,
    pub parameters: Vec<u8>,
    pub bits: u64,
}
