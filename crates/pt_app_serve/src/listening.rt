ghost use Rattle.std.specs.Prelude.{◌≡◌, ◌+◌, ◌<◌, ◌^◌, ◌↔◌, None, ⊤, IfErr, IfOk, IsNone, IsSome};
ghost use Rattle.pt_base_values.specs.Fault.{fault};
ghost use Rattle.pt_app_serve.specs.Port.{IsOwnAddress, comes_to, ending_at, left_of};
ghost use Rattle.pt_base_values.specs.declared.fault.Cause.TheVariants as cause;

use crate::accepting::Accepts;
use crate::closing::Parting;
use pt_base_values::{Cause, Fault};
use std::io;
use std::net::{IpAddr, Ipv4Addr, Net, SocketAddr, TcpListener, TcpStream};
use std::time::Clock;

/// A port that is listened on, for so many connections. There is none of a port that cannot be had.
#[derive(Drop)]
pub struct Port {
    pub(crate) listener: TcpListener,
    /// How many connections it is still open to.
    left: u32,
    /// How the last connection was left.
    last: Option<Parting>,
}

/// What listens at an address.
///
/// Only a call of `listen` gives `listens`. Code that is proved over every type cannot make it up.
pub trait Listens {
    ghost use Rattle.std.specs.declared.net.socket_addr.SocketAddr.{SocketAddr};
    ghost use Rattle.std.specs.declared.net.tcp.TcpListener.{TcpListener};

    /// The listener listens at the address.
    ghost listens: { TcpListener → SocketAddr → Type 0 };

    fn listen(&self, address: SocketAddr) -> io::Result<TcpListener>
        ensures { IfOk result (λ listener. listens listener address) };
}

/// The kit states nothing of what a socket listens at.
impl<R: Net<Listener = TcpListener, Stream = TcpStream>> Listens for R {
    ghost listens = { λ _ _. ⊤ };

    fn listen(&self, address: SocketAddr) -> io::Result<TcpListener> {
        TcpListener::bind(self, address)
    }
}

/// The address 127.0.0.1 with this port.
fn own_address(number: u16) -> SocketAddr
    ensures { IsOwnAddress number result }
{
    SocketAddr::new(IpAddr::V4(Ipv4Addr::LOCALHOST), number)
}

impl Port {
    ghost use Rattle.std.specs.declared.net.socket_addr.SocketAddr.{SocketAddr};

    /// Listens on a port of this machine's own address 127.0.0.1, for so many connections, and says so on standard
    /// error.
    pub fn open<R: Eprint + Listens>(rt: &R, number: u16, connections: u32) -> Result<Port, Fault>
        ensures address { IfOk result (λ port. (address : SocketAddr) × IsOwnAddress number address
            × R.listens port.listener address) }
        ensures left { IfOk result (λ port. left_of port ≡ connections) }
        ensures fault { IfErr result (λ error. error ≡ fault cause.PortRefused) }
    {
        let Ok(listener) = rt.listen(own_address(number)) else {
            return Err(Fault::of(Cause::PortRefused));
        };
        let _shown = eprintln!(rt; "listening on 127.0.0.1:{number}");
        Ok(Port {
            listener,
            left: connections,
            last: None,
        })
    }

    /// Waits for the next connection, if the port is open to one more. One that cannot be accepted counts too.
    fn next_stream(&mut self) -> Option<io::Result<TcpStream>>
        ensures none { IsNone result ↔ (left_of self.old ≡ 0) }
        ensures same { IsNone result → self.new ≡ self.old }
        ensures one { IsSome result → left_of self.new + 1 ≡ left_of self.old }
        ensures ending { ending_at self.new ≡ ending_at self.old }
        ensures fits { left_of self.old < 2 ^ 32 }
    {
        if self.left == 0 {
            return None;
        }
        self.left -= 1;
        Some(self.listener.accept().map(|(stream, _peer)| stream))
    }
}

impl Accepts for Port {
    type Stream = TcpStream;

    ghost comes = { comes_to };

    ghost replied = { λ _. None };

    ghost ending = { ending_at };

    fn accept(&mut self) -> Option<io::Result<TcpStream>> {
        self.next_stream()
    }

    fn leave<C: Clock>(&mut self, clock: &C, stream: TcpStream, is_whole: bool) {
        self.last = Some(Parting::of(clock, stream, is_whole));
    }
}
