// A plan within its limits, and a processor that is sound: values that carry what checks 2 to 4 and 9 found, so that it is asked once.
ghost use Rattle.std.specs.Prelude.{◌≡◌, true, false, MatchOption, MatchResult};
ghost use Rattle.model.specs.Processors.{processor_unsound};
ghost use Rattle.pacemaker.specs.Limits.{plan_check, Within, Sound};

use types::{Plan, Processor};

// A plan that checks 2 to 4 passed.
#[derive(Clone, Copy)]
pub struct PlanWithin {
    pub plan: Plan,
    pub ghost within: { Within plan },
}

impl PlanWithin {
    // The plan within its limits, or the first of checks 2 to 4 that refuses it.
    pub fn of(plan: Plan) -> Result<PlanWithin, u64>
        ensures { MatchResult result (λ w. (plan_check plan ≡ Ok tt) × (w.plan ≡ plan)) (λ check. plan_check plan ≡ Err check) }
    {
        crate::plan_check(plan)?;
        Ok(PlanWithin { plan })
    }
}

// A processor that check 9 passed, with its plan.
#[derive(Clone, Copy)]
pub(crate) struct SoundProcessor {
    pub(crate) within: PlanWithin,
    pub(crate) processor: Processor,
    ghost sound: { Sound within.plan processor },
}

impl SoundProcessor {
    // The processor with its plan, where check 9 passes it.
    pub(crate) fn of(plan: Plan, processor: Processor) -> Option<SoundProcessor>
        ensures { MatchOption result (processor_unsound plan processor ≡ true)
            (λ s. (processor_unsound plan processor ≡ false) × (s.within.plan ≡ plan) × (s.processor ≡ processor)) }
    {
        let Ok(within) = PlanWithin::of(plan) else {
            return None;
        };
        if crate::clock_outside(within, processor) {
            None
        } else {
            Some(SoundProcessor { within, processor })
        }
    }
}
