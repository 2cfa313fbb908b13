//! Laws of the plain session, for the crates above. Each function does nothing.
ghost use Rattle.sched_core.specs.Answered.{StepsForgetNone};
ghost use Rattle.sched_core.specs.Pending.{AllWaitAtStart, NoneWaitsInVain, StepsKeepWaiting};
ghost use Rattle.sched_core.specs.Plain.{StepsEnd};

/// A message adds no more steps without a message than a text has bytes, and each such step takes one away.
pub fn law_of_idle_steps()
    ensures { StepsEnd }
{}

/// Each request that waits does so for an open document, whatever comes: so none waits where each text is checked.
/// A step that no longer has it waiting answers it.
pub fn law_of_waiting()
    ensures first { AllWaitAtStart }
    ensures steps { StepsKeepWaiting }
    ensures none { NoneWaitsInVain }
    ensures answered { StepsForgetNone }
{}
