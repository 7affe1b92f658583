/// What each worker passes before it begins its stripe. It promises nothing.
pub trait Gate: Sync {
    /// Called once for each stripe, by the stripe's worker. Stripes are numbered from 0.
    fn enter(&self, stripe: u32);
}

/// The gate that lets every worker pass at once.
#[derive(Debug, Drop)]
pub struct OpenGate;

impl Gate for OpenGate {
    fn enter(&self, _stripe: u32) {}
}
