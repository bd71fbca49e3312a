//! What the definitions give on a worked course.

ghost use Rattle.std.specs.Prelude.{◌≡◌, codes};
ghost use Rattle.trace_bundle.specs.Worked.{quiet_course};
ghost use Rattle.trace_bundle.specs.Report.{big_lines_of};

/// Two branches without an event, and a study of ten bytes.
pub fn lines_of_a_quiet_course()
    ensures { big_lines_of 10 quiet_course ≡ codes "study bytes 10\nbranches 2\nevents 0\ndistinct 0\nbundle bytes 785\nbyte sum 11793\n" }
{}
