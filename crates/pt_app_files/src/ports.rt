ghost use Rattle.std.specs.Prelude.{ℕ, Result, IfOk};
ghost use Rattle.pt_base_values.specs.declared.fault.Fault.{Fault};
ghost use Rattle.pt_app_files.specs.Serve.{ListensFor};

use pt_app_serve::{Listens, Port};
use pt_base_values::Fault;

/// What opens ports.
///
/// Only a call gives `opens`. Code that is proved over every type cannot make it up.
pub trait DeskPorts {
    /// A port that was opened.
    type Opened;

    /// A call of `open` with this number, for so many connections, with this result, leads from one state to the next.
    ghost opens: { Self → ℕ → ℕ → Result Self.Opened Fault → Self → Type 0 };

    /// Opens a port, for so many connections.
    fn open(&mut self, number: u16, connections: u32) -> Result<Self::Opened, Fault>
        ensures { opens self.old number connections result self.new };
}

/// The ports of this machine's own address 127.0.0.1.
#[derive(Drop)]
pub struct OwnPorts<'a, R: Eprint + Listens> {
    rt: &'a R,
}

impl<'a, R: Eprint + Listens> OwnPorts<'a, R> {
    /// None of them is open yet.
    pub fn new(rt: &'a R) -> OwnPorts<'a, R> {
        OwnPorts { rt }
    }
}

impl<R: Eprint + Listens> DeskPorts for OwnPorts<'_, R> {
    type Opened = Port;

    ghost opens = { λ _ number connections result _. IfOk result (ListensFor R.listens number connections) };

    fn open(&mut self, number: u16, connections: u32) -> Result<Port, Fault> {
        Port::open(self.rt, number, connections)
    }
}
