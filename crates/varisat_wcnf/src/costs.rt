//! Prints the cost of each solution as it is found.
ghost use Rattle.std.specs.Prelude.{◌≡◌, ◌+◌, ◌-◌, ◌<◌, ◌^◌, ◌++◌, List, None, OnOk, OnErr, MatchResult};
ghost use Rattle.varisat_maxsat.specs.promises.Problems.{Found, Improve, IsStopped};
ghost use Rattle.varisat_wcnf.specs.promises.Printed.{cost_line, cost_lines, PrintsBeginning};
ghost use Rattle.varisat_wcnf.specs.inside.Costs.{ReturnsLast, PrintsFound};

use itoa::Buffer;
use std::alloc::Allocator;
use std::io::{self, ErrorKind};
use varisat_formula::io::ProofTarget;
use varisat_maxsat::problem::Problem;
use varisat_maxsat::refusal::MaxSatError;
use varisat_maxsat::sink::SolutionSink;
use varisat_maxsat::solving::{Solution, optimize_within};

/// Prints the line of a cost at once.
fn print_line<T: ProofTarget>(cost: u64, out: &mut T) -> io::Result<()>
    requires { (T.taken out.old).faults < 2 ^ 64 - 1 }
    ensures whole { OnOk result ((T.taken out.new).bytes ≡ (T.taken out.old).bytes ++ cost_line cost) }
    ensures quiet { OnOk result ((T.taken out.new).faults ≡ (T.taken out.old).faults) }
    ensures begun { OnErr result (PrintsBeginning (cost_line cost) (T.taken out.old) (T.taken out.new)) }
    ensures fault { OnErr result ((T.taken out.new).faults ≡ (T.taken out.old).faults + 1) }
{
    let mut buffer = Buffer::new();
    let digits = buffer.format(cost).as_bytes();
    out.put(b"o ")?;
    out.put(digits)?;
    out.put(b"\n")?;
    out.flush()?;
    Ok(())
}

/// Prints the line of a cost at once. A target whose faults cannot be counted any more takes none.
fn print_cost<T: ProofTarget>(cost: u64, out: &mut T) -> io::Result<()>
    ensures whole { OnOk result ((T.taken out.new).bytes ≡ (T.taken out.old).bytes ++ cost_line cost) }
    ensures quiet { OnOk result ((T.taken out.new).faults ≡ (T.taken out.old).faults) }
    ensures begun { OnErr result (PrintsBeginning (cost_line cost) (T.taken out.old) (T.taken out.new)) }
    ensures fault { OnErr result
        ((T.taken out.old).faults < 2 ^ 64 - 1 → (T.taken out.new).faults ≡ (T.taken out.old).faults + 1) }
{
    if out.faults() == u64::MAX {
        return Err(io::Error::from(ErrorKind::Other));
    }
    print_line(cost, out)?;
    Ok(())
}

/// Prints the cost of each solution at once, and keeps why a line was not printed.
#[derive(Drop)]
struct CostPrinter<'a, T: ProofTarget> {
    out: &'a mut T,
    fault: &'a mut Option<io::Error>,
}

impl<'a, T: ProofTarget> SolutionSink for CostPrinter<'a, T> {
    ghost use Rattle.std.specs.Prelude.{◌≡◌, ◌-◌, ◌<◌, ◌^◌, None, refl};
    ghost use Rattle.varisat_wcnf.specs.inside.Costs.{PrintsCosts, prints-none};

    ghost takes = { λ x found y. (y.out.ghost_name ≡ x.out.ghost_name) × (y.fault.ghost_name ≡ x.fault.ghost_name)
        × (x.fault.now ≡ None → (T.taken x.out.now).faults < 2 ^ 64 - 1 →
        PrintsCosts y.fault.now found (T.taken x.out.now) (T.taken y.out.now)) };

    fn take(&mut self, cost: u64, _values: &[bool]) -> bool {
        if self.fault.is_some() {
            return false;
        }
        let out = &mut *self.out;
        match print_cost(cost, out) {
            Ok(()) => true,
            Err(error) => {
                *self.fault = Some(error);
                false
            }
        }
    }

    ghost takes_none = { λ x. (refl, refl, λ none _. prints-none x.fault.now (T.taken x.out.now) none) };
}

/// Solves a problem, and hands each better solution on to the printer.
fn optimize_to<A: Allocator + Copy, T: ProofTarget>(
    alloc: A,
    problem: &Problem<A>,
    steps: Option<u64>,
    printer: &mut CostPrinter<'_, T>,
) -> Result<Option<Solution<A>>, MaxSatError>
    requires none { printer.old.fault.now ≡ None }
    requires countable { (T.taken printer.old.out.now).faults < 2 ^ 64 - 1 }
    ensures same_reference { printer.new.out.ghost_name ≡ printer.old.out.ghost_name }
    ensures same_fault { printer.new.fault.ghost_name ≡ printer.old.fault.ghost_name }
    ensures printed { PrintsFound problem.now printer.new.fault.now (T.taken printer.old.out.now)
        (T.taken printer.new.out.now) result }
{
    optimize_within(problem, steps, printer, alloc)
}

/// Solves a problem, prints the cost of each better solution at once, and keeps why a line was not printed.
fn optimize_or_keep<A: Allocator + Copy, T: ProofTarget>(
    alloc: A,
    problem: &Problem<A>,
    steps: Option<u64>,
    out: &mut T,
    fault: &mut Option<io::Error>,
) -> Result<Option<Solution<A>>, MaxSatError>
    requires none { fault.old ≡ None }
    requires countable { (T.taken out.old).faults < 2 ^ 64 - 1 }
    ensures { PrintsFound problem.now fault.new (T.taken out.old) (T.taken out.new) result }
{
    let mut printer = CostPrinter { out, fault };
    optimize_to(alloc, problem, steps, &mut printer)
}

/// Solves a problem, and prints the cost of each better solution at once. Err is for a line that was not printed.
pub(crate) fn optimize_printing<A: Allocator + Copy, T: ProofTarget>(
    alloc: A,
    problem: &Problem<A>,
    steps: Option<u64>,
    out: &mut T,
) -> io::Result<Result<Option<Solution<A>>, MaxSatError>>
    requires { (T.taken out.old).faults < 2 ^ 64 - 1 }
    ensures { (found : List Found) × Improve problem.now found × MatchResult result
        (λ r. ((T.taken out.new).bytes ≡ (T.taken out.old).bytes ++ cost_lines found)
        × ((T.taken out.new).faults ≡ (T.taken out.old).faults)
        × (IsStopped found → ⊥)
        × ReturnsLast problem.now found r)
        (λ _. PrintsBeginning (cost_lines found) (T.taken out.old) (T.taken out.new)
        × ((T.taken out.new).faults ≡ (T.taken out.old).faults + 1)) }
{
    let mut fault = None;
    let found = optimize_or_keep(alloc, problem, steps, out, &mut fault);
    match fault {
        None => Ok(found),
        Some(error) => Err(error),
    }
}
