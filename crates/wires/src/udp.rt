//! Sockets.

ghost use Rattle.std.specs.Prelude.{◌≡◌, ◌≤◌, length, IfOk, IfSome};

use super::kept::{Kept, copy_front, keep};
use super::wire::{Arrival, Lost, Unheard, Wire};
use std::alloc::Global;
use std::collections::VecDeque;
use std::io;
use std::net::{Ipv4Addr, Ipv6Addr, Net, SocketAddr, ToSocketAddrs, UdpSocket};
use std::time::{Clock, Duration, Instant};

/// A UDP socket for each end, and what the ends send to themselves.
///
/// What waits for a datagram waits at the first socket; the others are only looked at, so a program that serves several ends waits at one
/// that answers come to.
#[derive(Drop)]
pub struct UdpWire<C: Clock + Drop> {
    alloc: Global,
    clock: C,
    sockets: Vec<UdpSocket>,
    addresses: Vec<SocketAddr>,
    /// The end that is looked at first: one that is kept busy does not hide the others.
    next: usize,
    /// What ends have sent to themselves, which no socket carries.
    own: VecDeque<Kept>,
    /// Whether the first socket waits, or is only looked at too.
    waits: bool,
    /// How long it waits, and when it last had.
    wait: Duration,
    waited: Option<Instant>,
}

impl<C: Clock + Drop> UdpWire<C> {
    /// Opens a socket at each of the addresses, where port 0 is any that is free. What receives waits so long, which is not 0.
    ///
    /// An `Err` says that a socket could not be opened, or that memory was refused; those that were opened are closed again.
    pub fn open<R: Net>(
        alloc: Global,
        net: &R,
        clock: C,
        ends: &[SocketAddr],
        wait: Duration,
    ) -> io::Result<UdpWire<C>> {
        let mut sockets = Vec::new(alloc);
        let mut addresses = Vec::new(alloc);
        for end in ends {
            let socket = socket_at(net, *end, sockets.is_empty(), wait)?;
            addresses.push(socket.local_addr()?)?;
            sockets.push(socket)?;
        }
        Ok(UdpWire {
            alloc,
            waited: Instant::now(&clock).ok(),
            clock,
            sockets,
            addresses,
            next: 1,
            own: VecDeque::new(alloc),
            waits: true,
            wait,
        })
    }

    /// What an end has sent to itself, if something waits.
    fn take_own(&mut self, buffer: &mut [u8]) -> Option<Arrival<SocketAddr>>
        ensures fits { IfSome result (λ a. a.length ≤ length buffer.new) }
        ensures room { length buffer.new ≡ length buffer.old }
    {
        let kept = self.own.pop_front()?;
        let from = self.addresses.get(kept.from).copied()?;
        Some(Arrival {
            end: kept.to,
            from,
            length: copy_front(&kept.bytes, buffer),
        })
    }

    /// The datagram that has come to an end, if there is one; at the first one after a while, where that waits.
    fn receive_at(
        &self,
        end: usize,
        buffer: &mut [u8],
    ) -> Result<Option<Arrival<SocketAddr>>, Unheard>
        ensures fits { IfOk result (λ came. IfSome came (λ a. a.length ≤ length buffer.new)) }
        ensures room { length buffer.new ≡ length buffer.old }
    {
        let Some(socket) = self.sockets.get(end) else {
            return Ok(None);
        };
        match socket.recv_from(buffer) {
            Ok((length, from)) => Ok(Some(Arrival { end, from, length })),
            Err(error) if error.kind() == io::ErrorKind::WouldBlock => Ok(None),
            Err(_) => Err(Unheard),
        }
    }

    /// Looks at each end but the first, from the next one on, for a datagram.
    fn look(&mut self, buffer: &mut [u8]) -> Result<Option<Arrival<SocketAddr>>, Unheard>
        ensures fits { IfOk result (λ came. IfSome came (λ a. a.length ≤ length buffer.new)) }
        ensures room { length buffer.new ≡ length buffer.old }
    {
        // It goes on where it left off, so that no end waits for good behind one to which much is sent.
        for _look in 1..self.sockets.len() {
            let end = self.next;
            self.next = self.after(end);
            if let Some(arrival) = self.receive_at(end, buffer)? {
                return Ok(Some(arrival));
            }
        }
        Ok(None)
    }

    /// What has come to an end already, but for the first one: what ends have sent to themselves comes before all else.
    fn look_about(&mut self, buffer: &mut [u8]) -> Result<Option<Arrival<SocketAddr>>, Unheard>
        ensures fits { IfOk result (λ came. IfSome came (λ a. a.length ≤ length buffer.new)) }
        ensures room { length buffer.new ≡ length buffer.old }
    {
        if let Some(arrival) = self.take_own(buffer) {
            return Ok(Some(arrival));
        }
        self.look(buffer)
    }

    /// The first socket waits from now on, or is only looked at. A system call is made only where it was otherwise before.
    fn let_wait(&mut self, waits: bool) -> Result<(), Unheard> {
        if self.waits == waits {
            return Ok(());
        }
        if let Some(socket) = self.sockets.first() {
            socket.set_nonblocking(!waits).map_err(|_| Unheard)?;
        }
        self.waits = waits;
        Ok(())
    }

    /// The end after one, of those that are only looked at.
    fn after(&self, end: usize) -> usize {
        if end < self.sockets.len() { end + 1 } else { 1 }
    }

    /// Notes that a while ends now.
    fn note_now(&mut self) {
        self.waited = Instant::now(&self.clock).ok();
    }
}

/// The first address that a text names, as `IP:PORT`, `[IP]:PORT` or `NAME:PORT`; `None` where it names none that the system knows.
pub fn resolve<N: Net>(net: &N, text: &str) -> Option<SocketAddr> {
    text.to_socket_addrs(net).ok()?.next()
}

/// The address at which an end of this program alone is reached: the loopback's, at any port that is free.
pub fn loopback() -> SocketAddr {
    SocketAddr::from((Ipv4Addr::LOCALHOST, 0u16))
}

/// The address of an end from which another address can be reached: any of this machine's of that family, at any port that is free.
pub fn end_towards(other: SocketAddr) -> SocketAddr {
    match other {
        SocketAddr::V4(_) => SocketAddr::from((Ipv4Addr::UNSPECIFIED, 0u16)),
        SocketAddr::V6(_) => SocketAddr::from((Ipv6Addr::UNSPECIFIED, 0u16)),
    }
}

/// Opens the socket of an end. The first one waits; the others are only looked at.
fn socket_at<R: Net>(
    net: &R,
    address: SocketAddr,
    is_first: bool,
    wait: Duration,
) -> io::Result<UdpSocket> {
    let socket = UdpSocket::bind(net, address)?;
    if is_first {
        socket.set_read_timeout(Some(wait))?;
    } else {
        socket.set_nonblocking(true)?;
    }
    Ok(socket)
}

impl<C: Clock + Drop> Wire for UdpWire<C> {
    type Address = SocketAddr;

    ghost was_given = { λ w ds. Unit {0} };

    ghost has_brought = { λ w ds. Unit {0} };

    ghost has_waited = { λ w vain failures. Unit {0} };

    fn address(&self, end: usize) -> Option<SocketAddr> {
        self.addresses.get(end).copied()
    }

    fn send(&mut self, end: usize, to: SocketAddr, bytes: &[u8]) -> Result<(), Lost> {
        if self.address(end) == Some(to) {
            return keep(self.alloc, &mut self.own, end, end, bytes).map_err(|_| Lost);
        }
        let Some(socket) = self.sockets.get(end) else {
            return Err(Lost);
        };
        match socket.send_to(bytes, to) {
            Ok(_) => Ok(()),
            Err(_) => Err(Lost),
        }
    }

    fn receive(&mut self, buffer: &mut [u8]) -> Result<Option<Arrival<SocketAddr>>, Unheard> {
        if let Some(arrival) = self.look_about(buffer)? {
            return Ok(Some(arrival));
        }
        self.let_wait(true)?;
        let came = self.receive_at(0, buffer)?;
        if came.is_none() {
            self.note_now();
        }
        Ok(came)
    }

    fn receive_waiting(
        &mut self,
        buffer: &mut [u8],
    ) -> Result<Option<Arrival<SocketAddr>>, Unheard> {
        if let Some(arrival) = self.look_about(buffer)? {
            return Ok(Some(arrival));
        }
        self.let_wait(false)?;
        self.receive_at(0, buffer)
    }

    fn has_while_passed(&mut self) -> bool {
        let has_passed = match (self.waited, Instant::now(&self.clock)) {
            (Some(waited), Ok(now)) => now.duration_since(waited) >= self.wait,
            (None, Ok(_)) => true,
            (_, Err(_)) => false,
        };
        if has_passed {
            self.note_now();
        }
        has_passed
    }
}
