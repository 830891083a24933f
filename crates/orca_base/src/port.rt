ghost use Rattle.std.specs.Prelude.{◌≡◌};
ghost use Rattle.orca_base.specs.Ports.{port_name};

/// Where the bytes of a run go.
#[derive(Clone, Copy, Debug, PartialEq, Eq)]
pub enum Port {
    /// MIDI messages.
    Midi,
    /// Datagrams of plain text.
    Udp,
    /// Datagrams of OSC messages.
    Osc,
    /// The printed text, on standard output.
    Text,
    /// The line of a status other than success, on standard error.
    Fault,
    /// Paintings of the terminal.
    View,
}

impl Port {
    /// The name of the port in printed lines.
    pub fn name(self) -> &'static str
        ensures { result.now ≡ port_name self }
    {
        match self {
            Port::Midi => "midi",
            Port::Udp => "udp",
            Port::Osc => "osc",
            Port::Text => "text",
            Port::Fault => "fault",
            Port::View => "view",
        }
    }
}
