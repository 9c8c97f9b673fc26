//! Somebody who watches over the client of a connection.

/// A watcher of a connection's client, for example one that limits the client's time for the handshake.
pub trait ClientWatch {
    /// Is called when the client has agreed with the server, before its requests.
    fn agreed(&mut self);

    /// Is called by a device between the rounds of a long call. Returns whether the call shall go on: there is no use in it once
    /// the client has left.
    fn goes_on(&mut self) -> bool;
}
