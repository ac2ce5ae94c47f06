//! What carries datagrams.

ghost use Rattle.std.specs.Prelude.{◌≡◌, ◌≤◌, ◌+◌, ℕ, List, [], ◌∷◌, ◌++◌, length, IfOk, IfSome};
ghost use Rattle.wires.specs.Wires.{Carried, carried_in, failures_in, vain_in};

/// A datagram that has come: to which of the ends, from where, and how many bytes it has at the front of the buffer.
#[derive(Clone, Copy)]
pub struct Arrival<A: Copy> {
    /// The end that it came to.
    pub end: usize,
    /// Where it came from: what is sent there answers it.
    pub from: A,
    /// How many bytes it has; those that the buffer has no room for are cut off.
    pub length: usize,
}

/// The datagram was not taken: it is lost.
#[derive(Clone, Copy, PartialEq, Eq, Debug)]
pub struct Lost;

/// It is not known whether a datagram has come.
#[derive(Clone, Copy, PartialEq, Eq, Debug)]
pub struct Unheard;

/// Carries datagrams between ends, of which the program has those numbered from 0 on. Any may be lost, repeated or overtaken.
pub trait Wire {
    /// What names an end, here or elsewhere.
    type Address: Copy + Eq + Drop;

    /// It was given these datagrams to send, in this order, lost ones too. Of a socket nothing is known.
    ghost was_given: { Self → List (Carried Self.Address) → Type 0 };

    /// It has brought these datagrams, in this order. Of a socket nothing is known.
    ghost has_brought: { Self → List (Carried Self.Address) → Type 0 };

    /// It was waited for in vain so often, and failed so often, as it was waited for, to say whether something came. Of a socket nothing is known.
    ghost has_waited: { Self → ℕ → ℕ → Type 0 };

    /// What names one of the ends; `None` where there is no such end.
    fn address(&self, end: usize) -> Option<Self::Address>;

    /// Sends a datagram from one of the ends. What an end sends to itself is not lost, unless memory is refused.
    ///
    /// `Lost` where the datagram was not taken. It may be lost on its way too.
    fn send(&mut self, end: usize, to: Self::Address, bytes: &[u8]) -> Result<(), Lost>
        ensures given { (ds : List (Carried Self.Address)) → was_given self.old ds → was_given self.new (ds ++ record { end = end; peer = to; bytes = bytes.now } ∷ []) }
        ensures brought { (ds : List (Carried Self.Address)) → has_brought self.old ds → has_brought self.new ds }
        ensures waited { (vain failures : ℕ) → has_waited self.old vain failures → has_waited self.new vain failures };

    /// Waits for a datagram to any of the ends, as long as the wire was told when it was opened, and puts its bytes at the front of the buffer.
    /// There is none where none came.
    ///
    /// `Unheard` where that failed: nothing has come, as far as is known.
    fn receive(&mut self, buffer: &mut [u8]) -> Result<Option<Arrival<Self::Address>>, Unheard>
        ensures fits { IfOk result (λ came. IfSome came (λ a. a.length ≤ length buffer.new)) }
        ensures room { length buffer.new ≡ length buffer.old }
        ensures given { (ds : List (Carried Self.Address)) → was_given self.old ds → was_given self.new ds }
        ensures brought { (ds : List (Carried Self.Address)) → has_brought self.old ds → has_brought self.new (ds ++ carried_in result buffer.new) }
        ensures waited { (vain failures : ℕ) → has_waited self.old vain failures → has_waited self.new (vain_in result + vain) (failures_in result + failures) };

    /// Takes a datagram to any of the ends that waits already, and puts its bytes at the front of the buffer. There is none where none waits: it
    /// never waits for one itself.
    ///
    /// `Unheard` where that failed: nothing has come, as far as is known.
    fn receive_waiting(
        &mut self,
        buffer: &mut [u8],
    ) -> Result<Option<Arrival<Self::Address>>, Unheard>
        ensures fits { IfOk result (λ came. IfSome came (λ a. a.length ≤ length buffer.new)) }
        ensures room { length buffer.new ≡ length buffer.old }
        ensures given { (ds : List (Carried Self.Address)) → was_given self.old ds → was_given self.new ds }
        ensures brought { (ds : List (Carried Self.Address)) → has_brought self.old ds → has_brought self.new (ds ++ carried_in result buffer.new) }
        ensures waited { (vain failures : ℕ) → has_waited self.old vain failures → has_waited self.new vain failures };

    /// Whether the wire's while has passed since it was last asked this and said yes, or since it last waited in vain. A wire without a clock
    /// may say anything.
    fn has_while_passed(&mut self) -> bool
        ensures given { (ds : List (Carried Self.Address)) → was_given self.old ds → was_given self.new ds }
        ensures brought { (ds : List (Carried Self.Address)) → has_brought self.old ds → has_brought self.new ds }
        ensures waited { (vain failures : ℕ) → has_waited self.old vain failures → has_waited self.new vain failures };
}
