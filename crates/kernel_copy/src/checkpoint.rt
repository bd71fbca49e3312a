//! States that are kept for what goes on from them.

ghost use Rattle.std.specs.Prelude.{◌≡◌, IfOk};
ghost use Rattle.kernel_copy.specs.Courses.{IsKeyOf, state_at};

use crate::course::Course;
use checkpoint_shelf::Shelved;
use kernel_core::Kernel;
use market_types::Memory;
use shelf_core::Key;
use std::alloc::Global;
use std::marker::Model;
use std::sync::Arc;

/// A copy of the kernel as it is in a segment of a course after so many events.
#[derive(Drop)]
pub struct Checkpoint {
    course: Arc<Course>,
    key: Key,
    kernel: Kernel,
}

impl Model for Checkpoint {
    ghost use Rattle.kernel_copy.specs.Courses.{CheckpointTold, IsCheckpoint};

    ghost Value = { CheckpointTold };

    ghost view = { λ c. record { course = c.course.value; key = c.key; state = c.kernel } };

    ghost invariant = { λ c. IsCheckpoint (record { course = c.course.value; key = c.key; state = c.kernel }) };
}

impl Checkpoint {
    /// Keeps a copy of a kernel, which is the course's state at the key.
    ///
    /// # Errors
    /// Want of memory alone.
    pub fn keep(
        alloc: Global,
        course: &Arc<Course>,
        key: Key,
        kernel: &Kernel,
    ) -> Result<Arc<Checkpoint>, Memory>
        requires key { IsKeyOf course.now.value key }
        requires state { kernel.now ≡ state_at course.now.value key }
        ensures { IfOk result (λ c. c.value ≡ record { course = course.now.value; key = key; state = kernel.now }) }
    {
        let Ok(shared) = Arc::try_clone(course) else {
            return Err(Memory);
        };
        let Ok(kernel) = kernel.copy(alloc) else {
            drop(shared);
            return Err(Memory);
        };
        Checkpoint::shared(
            alloc,
            Checkpoint {
                course: shared,
                key,
                kernel,
            },
        )
    }

    // A checkpoint that can be shared.
    fn shared(alloc: Global, kept: Checkpoint) -> Result<Arc<Checkpoint>, Memory>
        ensures { IfOk result (λ c. c.value ≡ kept) }
    {
        match Arc::new(alloc, kept) {
            Ok(kept) => Ok(kept),
            Err(refused) => {
                drop(refused.value);
                Err(Memory)
            }
        }
    }

    /// The segment, and the number of one of its states.
    pub fn key(&self) -> Key
        ensures value { result ≡ self.now.key }
        ensures key { IsKeyOf self.now.course result }
    {
        self.key
    }

    /// The course.
    pub fn course(&self) -> &Course
        ensures { result.now ≡ self.now.course }
    {
        &self.course
    }

    /// How many events the state has: its key's number, or fewer where its run ended before or stopped at a time.
    pub fn events(&self) -> u32
        ensures value { result ≡ self.now.state.events }
        ensures state { result ≡ (state_at self.now.course self.now.key).events }
    {
        self.kernel.events()
    }

    /// An equal kernel: the course's state at the key.
    ///
    /// # Errors
    /// Want of memory alone.
    pub fn resume(&self, alloc: Global) -> Result<Kernel, Memory>
        ensures equal { IfOk result (λ k. k ≡ self.now.state) }
        ensures state { IfOk result (λ k. k ≡ state_at self.now.course self.now.key) }
    {
        self.kernel.copy(alloc)
    }
}

impl Shelved for Checkpoint {
    type Course = Course;

    ghost key_of = { λ c. c.key };

    ghost course_of = { λ c. c.course };

    fn key(&self) -> Key {
        self.key
    }

    fn course(&self) -> &Course {
        &self.course
    }
}
