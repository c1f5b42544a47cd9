//! A pool of exchanges, each an HTTP request and its response on one connection (link), over one wire, the transport: asks
//! wait, are in flight, and come or fail.
//!
//! A pool is made by `Pool::new` and given asks by `put`. These are its steps, at most so many. In each a reply comes for a
//! ticket (`Stepped::Came`), nothing does yet (`Waited`), or all came (`Idle`); or it ends with a fault. `add_step` notes
//! which, and says whether another step may follow:
//!
//! ```rust
//! while done < most {
//!     done += 1;
//!     let step = pool.step(wire);
//!     let goes_on = add_step(alloc, &step, told);
//!     drop(step);
//!     if !goes_on? {
//!         return Ok(());
//!     }
//! }
//! ```
#![tactic(auto)]

mod asks;
mod closes;
mod fault;
mod flying;
mod links;
mod pool;
mod rounds;
mod waits;

pub use fault::{Polled, PoolFault, Stepped};
pub use pool::Pool;
