//! Why a run ends, and the result of a step. (Numbers and names are this project's own: docs/PROCESSOR.md, "Stops".)

ghost use Rattle.std.specs.Prelude.{◌≡◌};

/// Why a run of a program ends.
#[derive(Clone, Copy, PartialEq, Eq)]
pub enum Stop {
    /// 1: HALT.
    Halt,
    /// 2: the run made as many steps as it was allowed to make.
    Limit,
    /// 3: WAIT, which never ends, since no device interrupts.
    Wait,
    /// 4: a trap couldn't push onto the stack.
    StackFault,
    /// 5: the start address is odd. A tape that names no start has an odd transfer address.
    NoStart,
    /// 6: the console's input failed.
    InputFault,
    /// 7: the console's output failed, or accepted nothing.
    OutputFault,
}

/// A lasting stop: each further step returns it and changes nothing.
#[derive(Clone, Copy)]
pub enum LastingStop {
    /// A trap couldn't push onto the stack.
    StackFault,
    /// The console's input failed.
    InputFault,
    /// The console's output failed, or accepted nothing.
    OutputFault,
}

/// The result of a step: the machine can go on, or it stops.
#[derive(Clone, Copy, PartialEq, Eq)]
pub enum Turn {
    /// The next instruction can begin, perhaps the first one of a trap handler.
    Next,
    /// The machine stops. After HALT and WAIT a further step goes on; after any other stop each further step returns the same stop.
    Stopped(Stop),
}

impl LastingStop {
    ghost use Rattle.m11_cpu_machine.specs.Stop.{stop_of};

    /// This stop as a `Stop`, which has a number and a name.
    pub fn stop(self) -> Stop
        ensures { result ≡ stop_of self }
    {
        match self {
            LastingStop::StackFault => Stop::StackFault,
            LastingStop::InputFault => Stop::InputFault,
            LastingStop::OutputFault => Stop::OutputFault,
        }
    }
}

impl Stop {
    ghost use Rattle.m11_cpu_machine.specs.Stop.{stop_name, stop_number};

    /// The stop's number, from 1 to 7.
    pub fn number(self) -> u8
        ensures { result ≡ stop_number self }
    {
        match self {
            Stop::Halt => 1,
            Stop::Limit => 2,
            Stop::Wait => 3,
            Stop::StackFault => 4,
            Stop::NoStart => 5,
            Stop::InputFault => 6,
            Stop::OutputFault => 7,
        }
    }

    /// The stop's name, as the messages of a run print it.
    pub fn name(self) -> &'static str
        ensures { result.now ≡ stop_name self }
    {
        match self {
            Stop::Halt => "HALT",
            Stop::Limit => "LIMIT",
            Stop::Wait => "WAIT",
            Stop::StackFault => "STACK FAULT",
            Stop::NoStart => "NO START",
            Stop::InputFault => "INPUT FAULT",
            Stop::OutputFault => "OUTPUT FAULT",
        }
    }
}
