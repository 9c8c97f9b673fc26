//! The links: to a server in memory, over a reader and a writer, over a connection to itself, and one that simulates
//! faults.

mod direct;
mod faulty;
mod frames;
mod loopback;
mod stream;

pub use direct::Direct;
pub use faulty::FaultLink;
pub use loopback::LoopLink;
pub use stream::StreamLink;
