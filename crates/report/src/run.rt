// The three passes on one plot, one after the other, each on what the one before left.
ghost use Rattle.std.specs.Prelude.{◌≡◌, length};
ghost use Rattle.mesh.specs.Words.{zero_words, zero_floats};
ghost use Rattle.repair.specs.Step.{State};
ghost use Rattle.report.specs.inside.Ran.{ran_of};
ghost use Rattle.report.specs.Run.{Ran, setting_for, run_flip, run_smooth, run_passes, sizes_left};
ghost use Rattle.report.specs.inside.Buffers.{state_in};

use crate::buffers::Buffers;
use geometry::field::Field;
use mesh::intake::{Settings, Sizes};
use mesh::refusal::Refusal;
use repair::flip::flip;
use repair::improve::improve;
use repair::smooth::smooth;

// The counts of the three passes.
#[derive(Clone, Copy)]
pub(crate) struct Changes {
    pub collapsed: usize,
    pub moved: usize,
    pub reconnected: usize,
}

// The counts of a run, and the sizes that the mesh has after it.
#[derive(Clone, Copy)]
pub(crate) struct Finished {
    pub changes: Changes,
    pub sizes: Sizes,
}

// Why a pass ended the run, and the sizes that the mesh has then.
#[derive(Clone, Copy)]
pub(crate) struct Stopped {
    pub refusal: Refusal,
    pub sizes: Sizes,
}

impl Buffers {
    // Runs `flip`, where the others gave these counts.
    fn run_flip(
        &mut self,
        s: Settings,
        fields: [Field; 8],
        collapsed: usize,
        moved: usize,
    ) -> Result<Finished, Stopped>
        ensures fact { ◌≡◌ {A = Ran × State} (ran_of result, state_in self.new (sizes_left (ran_of result)))
            (run_flip (setting_for s fields self.old.work self.old.floats) collapsed moved (state_in self.old s.sizes)) }
        ensures work_after { self.new.work ≡ zero_words (length self.old.work) }
        ensures floats_after { self.new.floats ≡ zero_floats (length self.old.floats) }
    {
        let sizes = s.sizes;
        let found = flip(
            s,
            fields,
            &self.parameters,
            &self.points,
            &self.masks,
            &mut self.elements,
            &mut self.surface,
            &mut self.work,
            &mut self.floats,
        );
        match found {
            Ok(made) => {
                let changes = Changes {
                    collapsed,
                    moved,
                    reconnected: made.count,
                };
                Ok(Finished {
                    changes,
                    sizes: made.sizes,
                })
            }
            Err(refusal) => Err(Stopped { refusal, sizes }),
        }
    }

    // Runs `smooth` and then `flip`.
    fn run_smooth(
        &mut self,
        s: Settings,
        fields: [Field; 8],
        collapsed: usize,
    ) -> Result<Finished, Stopped>
        ensures fact { ◌≡◌ {A = Ran × State} (ran_of result, state_in self.new (sizes_left (ran_of result)))
            (run_smooth (setting_for s fields self.old.work self.old.floats) collapsed (state_in self.old s.sizes)) }
        ensures work_after { self.new.work ≡ zero_words (length self.old.work) }
        ensures floats_after { self.new.floats ≡ zero_floats (length self.old.floats) }
    {
        let sizes = s.sizes;
        let found = smooth(
            s,
            fields,
            None,
            &mut self.parameters,
            &mut self.points,
            &self.masks,
            &self.elements,
            &self.surface,
            &mut self.work,
            &mut self.floats,
        );
        match found {
            Ok(made) => self.run_flip(s, fields, collapsed, made.count),
            Err(refusal) => Err(Stopped { refusal, sizes }),
        }
    }

    // Runs `improve`, `smooth` and `flip` once with no regions; the first that refuses ends the run. The work holds zeros after.
    pub(crate) fn run_passes(
        &mut self,
        s: Settings,
        fields: [Field; 8],
    ) -> Result<Finished, Stopped>
        ensures fact { ◌≡◌ {A = Ran × State} (ran_of result, state_in self.new (sizes_left (ran_of result)))
            (run_passes (setting_for s fields self.old.work self.old.floats) (state_in self.old s.sizes)) }
        ensures work_after { self.new.work ≡ zero_words (length self.old.work) }
        ensures floats_after { self.new.floats ≡ zero_floats (length self.old.floats) }
    {
        let sizes = s.sizes;
        let found = improve(
            s,
            fields,
            &mut self.parameters,
            &mut self.points,
            &mut self.masks,
            &mut self.elements,
            &mut self.surface,
            &mut self.work,
            &mut self.floats,
        );
        match found {
            Ok(made) => {
                let after = Settings {
                    sizes: made.sizes,
                    ..s
                };
                self.run_smooth(after, fields, made.count)
            }
            Err(refusal) => Err(Stopped { refusal, sizes }),
        }
    }
}
