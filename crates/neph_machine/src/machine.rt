// The machine.
use crate::place::Place;
use neph_hv::Hv;
use neph_model::Script;
use neph_pool::FramePool;

/// The machine of a script over a pool of counted frames.
#[derive(Drop)]
pub struct Machine<P: FramePool> {
    /// The script that its domains run.
    pub script: Script,
    /// The pool.
    pub pool: P,
    /// The hypervisor.
    pub hv: Hv<P>,
    /// What stands in the place of each id from 0 to 63.
    pub places: Vec<Place<P>>,
}
