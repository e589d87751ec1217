// Which calls of an object in memory are to fail.
ghost use Rattle.std.specs.Prelude.{◌≡◌, ◌≤◌, ◌↔◌, IsTrue, if◌then◌else◌};
ghost use Rattle.dkv_io.specs.Causes.{one_more};
ghost use Rattle.dkv_io.specs.Plans.{IsPlanned, IsCounted, HasOneFault, new_plan};

/// One more, or the last `u64`, where a count stands still.
pub fn raised(count: u64) -> u64
    ensures { result ≡ one_more count }
{
    count.saturating_add(1)
}

/// Which calls of an object in memory are to fail, by their numbers from 0 on, how many calls there were, and how many failed.
#[derive(Drop)]
pub struct FaultPlan {
    pub fails: Vec<u64>,
    pub calls: u64,
    pub faults: u64,
}

impl FaultPlan {
    /// No call was made yet.
    pub fn new(fails: Vec<u64>) -> FaultPlan
        ensures { result ≡ new_plan fails }
    {
        FaultPlan {
            fails,
            calls: 0,
            faults: 0,
        }
    }

    // Counts a call, and says whether it is to fail. One that is counts as a fault.
    pub(crate) fn fails_now(&mut self) -> bool
        ensures planned { IsTrue result ↔ IsPlanned self.old }
        ensures counted { IsCounted self.old self.new }
        ensures faults { self.new.faults
            ≡ (if result then one_more self.old.faults else self.old.faults) }
        ensures later { self.old.faults ≤ self.new.faults }
    {
        let call = self.calls;
        self.calls = raised(self.calls);
        if self.fails.contains(&call) {
            self.add_fault();
            return true;
        }
        false
    }

    // Counts a fault.
    pub(crate) fn add_fault(&mut self)
        ensures one { HasOneFault self.old self.new }
        ensures later { self.old.faults ≤ self.new.faults }
    {
        self.faults = raised(self.faults);
    }
}
