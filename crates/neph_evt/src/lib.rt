//! The event ports of all domains, as far as Xen's event channels go.
#![tactic(auto)]

mod device;
mod links;
mod port;
mod ports;
mod sizes;
mod table;
#[cfg(test)]
mod tests;

pub use device::{CONSOLE, NETWORK, P9};
pub use port::{BindRefused, Channel, EventPort, PortState};
pub use ports::Ports;
