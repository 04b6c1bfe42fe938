// A claim.
ghost use Rattle.std.specs.Prelude.{◌≡◌};

/// A worker's claim on a slot. It is made in the phase that follows `phase` closed ones, and is
/// spent by a put or given back.
pub struct Claim {
    pub phase: u32,
    pub slot: u32,
    pub worker: u32,
}

impl Claim {
    /// A claim on a slot that was drawn by its number among the pending ones.
    pub fn drawn(phase: u32, slot: u32, worker: u32) -> Claim
        ensures { result ≡ record { phase = phase; slot = slot; worker = worker } }
    {
        Claim {
            phase,
            slot,
            worker,
        }
    }
}
