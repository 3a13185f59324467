//! The services of a job.

use cov_base::Addr;

/// A routine of the job, which answers the supervisor call of this number.
#[derive(Clone, Copy)]
pub struct Service {
    /// By its card 0 or 6 to 254, which is no task call.
    pub number: u8,
    /// Where it begins: any address.
    pub entry: Addr,
}
