//! What was found for the words.

ghost use Rattle.std.specs.Prelude.{◌≡◌, ◌<◌, ◌≤◌};
ghost use Rattle.abides_run.specs.Ranges.{IsStride, places_in};

use command_words::Task;
use study_rules::Study;

/// A study, and how its runs are simulated.
#[derive(Drop)]
pub struct Simulation {
    /// The study.
    pub study: Study,
    /// How many grid places keep states on the way: 0 to 128.
    pub places: u32,
    /// How many workers simulate the segments: 1 to 64.
    pub workers: u32,
    ghost paced: { IsStride study.stride },
    ghost few_places: { places ≤ 128 },
    ghost some_workers: { 0 < workers },
    ghost few_workers: { workers ≤ 64 },
}

/// What was asked for of a study, with the study that the rules accept and the file that its task needs.
#[derive(Drop)]
pub struct FoundStudy<'a> {
    /// What is to be done.
    pub task: Task<'a>,
    /// The study, with the places of the task.
    pub simulation: Simulation,
    /// The bytes of the further file, where the task names one.
    pub further: Option<Vec<u8>>,
    ghost placed: { simulation.places ≡ places_in task },
}

/// A study with what is to be done with it, or a bundle to audit.
#[derive(Drop)]
pub enum Found<'a> {
    /// What a study's task needs.
    Study(FoundStudy<'a>),
    /// A large study, of whose run six lines are to tell. Its text has so many bytes.
    Large {
        /// The study.
        simulation: Simulation,
        /// How many bytes its text has.
        bytes: usize,
    },
    /// The bytes of the bundle's file.
    Bundle(Vec<u8>),
}
