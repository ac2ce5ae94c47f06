/// Why a server serves no longer.
#[derive(Clone, Copy, PartialEq, Eq, Debug)]
pub enum ServeFault {
    /// The store of its node's records failed, or had failed before: the node has stopped, and is to be opened again.
    Store,
}
