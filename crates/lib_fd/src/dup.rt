//! dup: what it asks at each stage, and what it does next.

ghost use Rattle.std.specs.Prelude.{◌≡◌};
ghost use Rattle.lib_fd.specs.DescriptorStages as stages;

use crate::close::dropping;
use crate::pages::{
    DESCRIPTORS, ask_drop, ask_drop_at, ask_entry, ask_map, ask_map_at, ask_pipe_entry,
    ask_region_for, is_there, pipe_va,
};
use jos_base::{Called, E_INVAL};
use lib_os::{PipeStep, SERVICE_DUP, Step, answer_of};
use lib_stage::{Ask, Next, Planned};

/// How far dup is.
#[derive(Clone, Copy, Debug, PartialEq, Eq)]
pub enum DupStage {
    /// It is about to read whether descriptors' pages have a table.
    Entered,
    /// It is about to read the entry of the old descriptor's page.
    OldEntry,
    /// It is about to read the entry of the new descriptor's page.
    NewEntry,
    /// The new descriptor is open, and it is about to read whether it has a pipe's page.
    NewPipe,
    /// It has none, and dup is about to drop it.
    Dropping,
    /// It has one, and dup is about to drop the new descriptor's page.
    DroppingEnd,
    /// It is about to drop the pipe's page that the new descriptor has.
    DroppingPipe,
    /// The new descriptor is free, and it is about to read whether the old one has a pipe's page.
    OldPipe,
    /// It has one, and dup is about to map that as the new one's.
    MappingEnd,
    /// It is about to map the old descriptor's page as the new one's.
    Mapping,
}

/// dup(old, new), at a stage.
#[derive(Clone, Copy, Debug, PartialEq, Eq)]
pub struct Dup {
    pub old: u32,
    pub new: u32,
    pub at: DupStage,
}

impl Dup {
    /// dup at a step, if it has this step.
    pub fn at_step(old: u32, new: u32, step: Step) -> Option<Dup>
        ensures { result ≡ stages.dup_at old new step }
    {
        let at = match step {
            Step::Entered => DupStage::Entered,
            Step::DescriptorEntry { .. } => DupStage::OldEntry,
            Step::TargetEntry => DupStage::NewEntry,
            Step::DroppingDescriptor { .. } => DupStage::Dropping,
            Step::MappingDescriptor => DupStage::Mapping,
            Step::Piped {
                at: PipeStep::PipeEntry { .. },
            } => DupStage::NewPipe,
            Step::Piped {
                at: PipeStep::DroppingEnd { .. },
            } => DupStage::DroppingEnd,
            Step::Piped {
                at: PipeStep::DroppingPipe { .. },
            } => DupStage::DroppingPipe,
            Step::Piped {
                at: PipeStep::SourcePipe,
            } => DupStage::OldPipe,
            Step::Piped {
                at: PipeStep::MappingEnd,
            } => DupStage::MappingEnd,
            _ => return None,
        };
        Some(Dup { old, new, at })
    }
}

impl Planned for Dup {
    ghost use Rattle.lib_fd.specs.DescriptorStages.{duplicating};

    ghost plan = { duplicating };

    fn number(&self) -> u32 {
        SERVICE_DUP
    }

    fn ask(&self) -> Ask {
        match self.at {
            DupStage::Entered => ask_region_for(self.old),
            DupStage::OldEntry => ask_entry(self.old),
            DupStage::NewEntry => ask_entry(self.new),
            DupStage::NewPipe => ask_pipe_entry(self.new),
            DupStage::Dropping | DupStage::DroppingEnd => ask_drop(self.new),
            DupStage::DroppingPipe => ask_drop_at(pipe_va(self.new)),
            DupStage::OldPipe => ask_pipe_entry(self.old),
            DupStage::MappingEnd => ask_map_at(pipe_va(self.old), pipe_va(self.new)),
            DupStage::Mapping => ask_map(self.old, self.new),
        }
    }

    fn next(&self, called: Called) -> Next {
        let word = answer_of(called);
        match self.at {
            DupStage::Entered => {
                if self.old >= DESCRIPTORS || !is_there(word) {
                    return Next::Answer(E_INVAL.wrapping_neg());
                }
                Next::GoOn(Step::DescriptorEntry { fd: self.old })
            }
            DupStage::OldEntry => {
                if !is_there(word) || self.new >= DESCRIPTORS {
                    return Next::Answer(E_INVAL.wrapping_neg());
                }
                if self.old == self.new {
                    return Next::Answer(self.new);
                }
                Next::GoOn(Step::TargetEntry)
            }
            DupStage::NewEntry => {
                if is_there(word) {
                    return Next::GoOn(Step::Piped {
                        at: PipeStep::PipeEntry { fd: self.new },
                    });
                }
                Next::GoOn(Step::Piped {
                    at: PipeStep::SourcePipe,
                })
            }
            DupStage::NewPipe => Next::GoOn(dropping(self.new, word)),
            DupStage::DroppingEnd => Next::GoOn(Step::Piped {
                at: PipeStep::DroppingPipe { fd: self.new },
            }),
            DupStage::Dropping | DupStage::DroppingPipe => Next::Show(Step::Piped {
                at: PipeStep::SourcePipe,
            }),
            DupStage::OldPipe => {
                if is_there(word) {
                    return Next::GoOn(Step::Piped {
                        at: PipeStep::MappingEnd,
                    });
                }
                Next::GoOn(Step::MappingDescriptor)
            }
            DupStage::MappingEnd => Next::GoOn(Step::MappingDescriptor),
            DupStage::Mapping => {
                if word == 0 {
                    return Next::Answer(self.new);
                }
                Next::Answer(word)
            }
        }
    }
}
