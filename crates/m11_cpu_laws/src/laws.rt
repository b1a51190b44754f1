//! Laws about the console, stops and runs.

ghost use Rattle.std.specs.Prelude.{◌≡◌, List, ℕ, Some};
ghost use Rattle.m11_cpu_machine.specs.Dialogue.{Comes, Devices, Exchange, Happened, Leads};
ghost use Rattle.m11_cpu_machine.specs.Steps.{step};
ghost use Rattle.m11_cpu_machine.specs.Stop.{stop_of};
ghost use Rattle.m11_cpu_machine.specs.declared.machine.Machine.{Machine};
ghost use Rattle.m11_cpu_machine.specs.declared.stop.LastingStop.{LastingStop};
ghost use Rattle.m11_cpu_machine.specs.declared.stop.Turn.{Turn};
ghost use Rattle.m11_cpu_machine.specs.declared.stop.Turn.TheVariants.{Stopped};
ghost use Rattle.m11_cpu_laws.specs.Laws.{AreJoined, GainedJust, GaveJust, StopLasts, given, taken};

/// Whatever was requested and sent, the input returned exactly the bytes of its replies, in order, and the output gained exactly the bytes
/// that it accepted. So after a step or a run, no byte was requested in advance, and none is held back.
#[tactic(auto, using(crate::proofs::ConsoleExact::input_exact, crate::proofs::ConsoleExact::output_exact))]
pub fn console_is_exact()
    ensures input { (old new : Devices) (exchanges : List Exchange) → Happened old new exchanges
        → GaveJust old.input new.input (given exchanges) }
    ensures output { (old new : Devices) (exchanges : List Exchange) → Happened old new exchanges
        → GainedJust old.output new.output (taken exchanges) }
{}

/// A step that stops because of a stack fault or a failed device stores this stop in the machine; no step stops because of a limit or an
/// odd start address. Every further step of a machine with a stored stop returns that stop and changes nothing.
#[tactic(auto, using(crate::proofs::StopsLast::step_stop_lasts, crate::proofs::StopsLast::step_again))]
pub fn stops_last()
    ensures kept { (m : Machine) (exchanges : List Exchange) (came : Turn × Machine)
        → Leads (step m) exchanges came → StopLasts came.0 came.1 }
    ensures again { (m : Machine) (stop : LastingStop) → m.stopped ≡ Some stop
        → step m ≡ Comes (Stopped (stop_of stop), m) }
{}

/// A run that returns `Limit`, followed by a run with a second limit, is the same as one run with the sum of both limits.
#[tactic(auto, using(crate::proofs::RunsJoined::runs_joined))]
pub fn runs_are_joined()
    ensures { (first second : ℕ) (m middle last : Machine) → AreJoined first second m middle last }
{}
