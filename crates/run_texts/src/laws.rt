// Laws of schedules and lines: each is a function that states one, does nothing and takes nothing.
ghost use Rattle.run_texts.specs.Schedules.{SchedulesAreExact};
ghost use Rattle.run_texts.specs.Examples.{WorkedSchedulesHold, WorkedEndingsHold};

/// The quanta of a schedule and its first wrong line, in numbers.
pub fn schedules_are_exact()
    ensures { SchedulesAreExact }
{}

/// Texts that were worked out by hand are read as that.
pub fn worked_schedules_hold()
    ensures { WorkedSchedulesHold }
{}

/// Lines that were worked out by hand are those.
pub fn worked_endings_hold()
    ensures { WorkedEndingsHold }
{}
