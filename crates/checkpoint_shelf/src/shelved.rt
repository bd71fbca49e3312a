//! What a value on the shelf says of itself.

ghost use Rattle.std.specs.Prelude.{◌≡◌};
ghost use Rattle.shelf_core.specs.declared.plan.Key.{Key as TheKey};

use shelf_core::Key;

/// A value that a shelf keeps.
pub trait Shelved {
    // What the values of one shelf have in common.
    type Course;

    ghost key_of: { Self → TheKey };

    ghost course_of: { Self → Self.Course };

    // The value's key.
    fn key(&self) -> Key
        ensures { result ≡ key_of self.now };

    // The value's course.
    fn course(&self) -> &Self::Course
        ensures { result.now ≡ course_of self.now };
}
