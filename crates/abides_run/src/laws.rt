//! Laws of what is counted.

ghost use Rattle.std.specs.Prelude.{◌≡◌, ◌+◌, ℕ, List};
ghost use Rattle.kernel_copy.specs.Courses.{IsCourse};
ghost use Rattle.rewind_desk.specs.Left.{IsAmple};
ghost use Rattle.session_desk.specs.declared.act.Act.{Act};
ghost use Rattle.study_rules.specs.Accepted.{StudyTold};
ghost use Rattle.abides_run.specs.Output.{SessionRose, allowed, carried_out, simulated};

use rewind_desk::left::left_states_are_one_number;
use session_desk::carried_laws::nearer_states_leave_less;

/// Where no copies are kept between the ends of segments, and where each of them has a place of its own and none lies past the end
/// of its segment's run, a session comes to one number of steps, whatever the workers did: the two bounds of its counter meet there.
pub fn sessions_count_one_number()
    ensures meet { (s : StudyTold) (places : ℕ) (acts : List Act) → IsCourse s.course → IsAmple s.course s.stride places → allowed (carried_out acts places s) ≡ 0 }
    ensures one { (s : StudyTold) (places : ℕ) (acts : List Act) (old new : ℕ) → IsCourse s.course → IsAmple s.course s.stride places → SessionRose s places acts old new → new ≡ old + simulated (carried_out acts places s) }
{
    left_states_are_one_number();
    nearer_states_leave_less();
}
