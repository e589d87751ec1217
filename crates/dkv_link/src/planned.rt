// One call of an object in memory, which fails as its plan says.
ghost use Rattle.std.specs.Prelude.{IsErr};
ghost use Rattle.dkv_io.specs.Causes.{HasCause};
ghost use Rattle.dkv_io.specs.Plans.{FailsAsPlanned, HasOneFault};

use dkv_io::{Failed, FaultPlan, raised};

// Counts a call. One that is to fail is a fault.
pub(crate) fn call(plan: &mut FaultPlan) -> Result<(), Failed>
    ensures plan { FailsAsPlanned ⊥ plan.old plan.new result }
    ensures cause { HasCause plan.old.faults plan.new.faults result }
{
    let number = plan.calls;
    plan.calls = raised(plan.calls);
    if plan.fails.contains(&number) {
        return fault(plan);
    }
    Ok(())
}

// Counts a fault.
pub(crate) fn fault(plan: &mut FaultPlan) -> Result<(), Failed>
    ensures err { IsErr result }
    ensures one { HasOneFault plan.old plan.new }
    ensures cause { HasCause plan.old.faults plan.new.faults result }
{
    plan.faults = raised(plan.faults);
    Err(Failed)
}
