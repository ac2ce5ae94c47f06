//! What comes to a site.

use member::Tick;

/// What comes to a site: received bytes, or a tick.
#[derive(Clone, Copy)]
pub enum Input<'a> {
    /// The bytes of a message.
    Bytes(&'a [u8]),
    /// A tick.
    Tick(Tick),
}
