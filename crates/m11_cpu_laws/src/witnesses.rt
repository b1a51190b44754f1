//! Machines that satisfy the premises of laws.

ghost use Rattle.m11_cpu_laws.specs.Witnesses.{AsksInVain, RunIsJoined, SendsInVain, StatusIsStored, StepIsTraced, TrapIsMade, TrapsInVain};

/// For each law about steps and runs that has premises, some machine satisfies them. One step makes a request to an input that
/// fails, one sends to an output that fails, one traps without room for its pushes, and one begins with T set; a run reaches its
/// limit and is continued; EMT traps to an RTI; the destination of a MOV is the processor status word. The machines have a few bytes
/// of memory. Those for calls are in `calls_return`.
#[tactic(auto, using(crate::proofs::PremisesMet::asks_in_vain, crate::proofs::PremisesMet::sends_in_vain, crate::proofs::PremisesMet::traps_in_vain, crate::proofs::PremisesMet::step_is_traced, crate::proofs::PremisesMet::run_is_joined, crate::proofs::PremisesMet::trap_is_made, crate::proofs::PremisesMet::status_is_stored))]
pub fn premises_are_met()
    ensures asks { AsksInVain }
    ensures sends { SendsInVain }
    ensures traps { TrapsInVain }
    ensures traced { StepIsTraced }
    ensures joined { RunIsJoined }
    ensures returns { TrapIsMade }
    ensures status { StatusIsStored }
{}
