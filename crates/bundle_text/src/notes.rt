// What is noted of a bundle text while it is read, in fixed memory. What passes a limit is counted, and stored only as far as there is room.
ghost use Rattle.std.specs.Prelude.{◌≡◌, ◌+◌, ◌^◌, ◌≤◌, ◌<◌};
ghost use Rattle.bundle_text.specs.notes.Notes.{no_notes, uncounted, with_inner, with_cell, with_count, with_outer, with_path};
ghost use Rattle.text_spec.specs.Limits.{max_bundle_bytes};

use crate::steps::{StepRead, TestRead};
use compiled_paths::{Axis, CONDITION_STARTS, PATH_STARTS, STEPS, WRITTEN_STEPS};
use text::scanning::note;

// The steps in brackets.
const INNER_STEPS: usize = STEPS - WRITTEN_STEPS;

// In a cell that nothing is noted in.
const NO_STEP: StepRead = StepRead {
    axis: Axis::SelfNode,
    test: TestRead::Node,
    ends_alternative: false,
};

// The starts are those of compiled paths: past the first cell stands where each path's or condition's steps end.
#[derive(Drop)]
pub struct Notes {
    // the steps outside brackets, and how many there are
    pub outer: [StepRead; WRITTEN_STEPS],
    pub outer_count: usize,
    // for each of them the range of the steps in its brackets
    pub conditions: [u16; CONDITION_STARTS],
    // the steps in brackets, and how many there are
    pub inner: [StepRead; INNER_STEPS],
    pub inner_count: usize,
    // for each path the range of its steps outside brackets, and how many paths there are
    pub paths: [u16; PATH_STARTS],
    pub path_count: usize,
}

impl Notes {
    pub fn new() -> Notes
        ensures { result ≡ no_notes }
    {
        Notes {
            outer: [NO_STEP; WRITTEN_STEPS],
            outer_count: 0,
            conditions: [WRITTEN_STEPS as u16; CONDITION_STARTS],
            inner: [NO_STEP; INNER_STEPS],
            inner_count: 0,
            paths: [0; PATH_STARTS],
            path_count: 0,
        }
    }

    // Counts from 0 again. The cells stay.
    pub fn forget_counts(&mut self)
        ensures { self.new ≡ uncounted self.old }
    {
        self.outer_count = 0;
        self.inner_count = 0;
        self.path_count = 0;
    }

    // Notes a step in brackets.
    pub fn note_inner(&mut self, step: StepRead)
        requires { self.old.inner_count ≤ max_bundle_bytes }
        ensures { self.new ≡ with_inner self.old step }
    {
        note(&mut self.inner, self.inner_count, step);
        self.inner_count += 1;
    }

    // Notes a step outside brackets, which is not counted yet.
    pub fn note_cell(&mut self, step: StepRead)
        ensures { self.new ≡ with_cell self.old step }
    {
        note(&mut self.outer, self.outer_count, step);
    }

    // Counts the step in the next cell, after those in its brackets.
    pub fn count_outer(&mut self)
        requires { (self.old.outer_count + 1 < 2 ^ 64) × (self.old.inner_count ≤ max_bundle_bytes) }
        ensures { self.new ≡ with_count self.old }
    {
        self.outer_count += 1;
        let end = (WRITTEN_STEPS + self.inner_count) as u16;
        note(&mut self.conditions, self.outer_count, end);
    }

    // Notes a step outside brackets, after those in its own.
    pub fn note_outer(&mut self, step: StepRead)
        requires { (self.old.outer_count + 1 < 2 ^ 64) × (self.old.inner_count ≤ max_bundle_bytes) }
        ensures { self.new ≡ with_outer self.old step }
    {
        self.note_cell(step);
        self.count_outer();
    }

    // Notes a path, after its steps.
    pub fn note_path(&mut self)
        requires { (self.old.path_count ≤ max_bundle_bytes) × (self.old.outer_count ≤ max_bundle_bytes) }
        ensures { self.new ≡ with_path self.old }
    {
        self.path_count += 1;
        note(&mut self.paths, self.path_count, self.outer_count as u16);
    }
}
