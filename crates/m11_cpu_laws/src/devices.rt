//! Laws about the exchanges of a step with its devices.

ghost use Rattle.std.specs.Prelude.{List, ℕ, Result};
ghost use Rattle.m11_cpu_machine.specs.Access.{load_byte, load_word};
ghost use Rattle.m11_cpu_machine.specs.Dialogue.{Exchange, Leads};
ghost use Rattle.m11_cpu_machine.specs.Steps.{step};
ghost use Rattle.m11_cpu_machine.specs.declared.abort.Abort.{Abort};
ghost use Rattle.m11_cpu_machine.specs.declared.machine.Machine.{Machine};
ghost use Rattle.m11_cpu_machine.specs.declared.stop.Turn.{Turn};
ghost use Rattle.m11_cpu_laws.specs.Failures.{device_stop, GoesOn, StopsAtFailure};
ghost use Rattle.m11_cpu_laws.specs.Receiving.{ReceiverChanges, LoadReceives};
ghost use Rattle.m11_cpu_laws.specs.Writes.{MakesSteps};

/// A failing device stops the step, and nothing else causes INPUT FAULT or OUTPUT FAULT. If the machine had no lasting stop before, a step
/// returns INPUT FAULT if and only if its last exchange is a request that failed. It returns OUTPUT FAULT if and only if its last exchange
/// is a byte that was refused, even one that a trap pushes. In both cases no earlier exchange failed. After a step that halts, waits, or
/// can be followed by another, the machine has no lasting stop.
#[tactic(auto, using(crate::proofs::StepsReport::step_fails, crate::proofs::StepsReport::step_goes_on))]
pub fn failures_stop()
    ensures stops { (m m' : Machine) (turn : Turn) (exchanges : List Exchange) → MakesSteps m
        → Leads (step m) exchanges (turn, m') → StopsAtFailure exchanges (device_stop turn) }
    ensures goes_on { (m m' : Machine) (turn : Turn) (exchanges : List Exchange)
        → Leads (step m) exchanges (turn, m') → GoesOn turn m' }
{}

/// The receiver changes only as follows. A step requests nothing once the input has ended, in that step or before. After the step the
/// receiver's byte is the last byte that arrived in the step, or the byte from before the step if none arrived. Done is set after the step
/// only if a byte arrived or done was set before. A load requests a byte only at 177560, if done is clear and the input hasn't ended, and
/// clears done only at 177562. So no byte is requested in advance. (SIMH PDP-11 manual, console terminal.)
#[tactic(auto, using(crate::proofs::StepsReport::step_hears, crate::proofs::LoadsHear::load_word_hears, crate::proofs::LoadsHear::load_byte_hears))]
pub fn receiver_asks_nothing_ahead()
    ensures step { (m m' : Machine) (turn : Turn) (exchanges : List Exchange)
        → Leads (step m) exchanges (turn, m') → ReceiverChanges m.receiver exchanges m'.receiver }
    ensures word { (address : ℕ) (m m' : Machine) (came : Result ℕ Abort) (exchanges : List Exchange)
        → Leads (load_word address m) exchanges (came, m') → LoadReceives address m exchanges m' }
    ensures byte { (address : ℕ) (m m' : Machine) (came : Result ℕ Abort) (exchanges : List Exchange)
        → Leads (load_byte address m) exchanges (came, m') → LoadReceives address m exchanges m' }
{}
