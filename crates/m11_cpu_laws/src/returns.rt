//! Laws about the return from calls and traps.

ghost use Rattle.m11_base.specs.declared.instruction.Insn.{Insn};
ghost use Rattle.m11_base.specs.declared.operand.Operand.{Operand};
ghost use Rattle.m11_base.specs.declared.operand.Register.{Register};
ghost use Rattle.m11_cpu_machine.specs.declared.abort.Vector.{Vector};
ghost use Rattle.m11_cpu_machine.specs.declared.machine.Machine.{Machine};
ghost use Rattle.m11_cpu_laws.specs.Returns.{CallIsMade, CallsReturn, HasRoom, IsRunning, PlainCallIsMade, PlainCallsReturn, TrapInstructionsReturn, TrapReturns};

/// A call returns. Premises: the machine has no lasting stop, and T is clear; JSR uses one of the registers 0 to 5, the mode of its operand
/// changes neither that register nor the stack pointer, and its push goes to memory. Then one step leads to the operand's address. If RTS
/// with that register is there after the push, one more step leads to the word after the call; it exchanges nothing with the console, and
/// that register and the stack pointer are as before. The same holds for JSR PC and RTS PC, which save no register, if the mode of the
/// operand doesn't change the stack pointer. Some machine makes each of these calls. (PDP-11/40 Processor Handbook, JSR and RTS.)
#[tactic(auto, using(crate::proofs::CallsBack::calls_back, crate::proofs::CallMade::call_made, crate::proofs::PlainCallsBack::plain_calls_back, crate::proofs::CallMade::plain_call_made))]
pub fn calls_return()
    ensures returns { (register : Register) (operand : Operand) (m : Machine) → CallsReturn register operand m }
    ensures made { CallIsMade }
    ensures returns_plainly { (operand : Operand) (m : Machine) → PlainCallsReturn operand m }
    ensures made_plainly { PlainCallIsMade }
{}

/// A trap returns. Premises: the machine has no lasting stop, T is clear, and both pushes of the trap go to memory. Then the machine
/// continues with the program counter and the processor status word in the vector after the pushes. If RTI is at that program counter, one
/// more step leads back, with program counter, processor status word and stack pointer as before. Neither step exchanges anything with the
/// console. After BPT, IOT, EMT, TRAP and a reserved code, the program counter is then at the word after the instruction. T in the vector's
/// status word may be set or clear, since only T after RTI has an effect. (PDP-11/40 Processor Handbook, "Processor traps", RTI.)
#[tactic(auto, using(crate::proofs::TrapsBack::trap_back, crate::proofs::TrapsBack::trap_instructions_back))]
pub fn traps_return()
    ensures traps { (vector : Vector) (m : Machine) → IsRunning m → HasRoom m → TrapReturns vector m }
    ensures instructions { (code : Insn) (vector : Vector) (m : Machine) → TrapInstructionsReturn code vector m }
{}
