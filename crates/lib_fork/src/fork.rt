//! fork: what it asks at each stage, and what it does next.

ghost use Rattle.std.specs.Prelude.{◌≡◌, ◌<◌, ◌*◌};
ghost use Rattle.jos_base.specs.declared.numbers.TheConstants.{NPTENTRIES};
ghost use Rattle.lib_os.specs.StandsFor.{child_perm};
ghost use Rattle.lib_fork.specs.ForkStages as stages;

use jos_base::{
    Called, ENV_RUNNABLE, NPTENTRIES, PGSIZE, PTE_P, PTE_SYSCALL, PTE_U, PTE_W, SYS_ENV_DESTROY,
    SYS_ENV_SET_PGFAULT_UPCALL, SYS_ENV_SET_STATUS, SYS_PAGE_ALLOC, SYS_PAGE_MAP, USTACKTOP, UVPT,
};
use lib_os::{PGFAULT_UPCALL, PTE_COW, PTE_SHARE, SERVICE_FORK, Step, UVPD, UXSTACK, answer_of};
use lib_stage::{Ask, Next, Planned};

/// The pages of programs have lesser numbers than this one.
const TOP_PAGE: u32 = USTACKTOP / PGSIZE;

/// The bits of the page that is the stack of the child's handler of page faults.
const STACK_PERM: u32 = PTE_P + PTE_U + PTE_W;

/// The bits of a page that is copied when it is written.
const COW_PERM: u32 = PTE_P + PTE_U + PTE_COW;

/// How far fork is, with the child's id.
#[derive(Clone, Copy, Debug, PartialEq, Eq)]
pub enum ForkStage {
    /// Nothing is done yet.
    Entered,
    /// It is about to read whether a region has a table.
    Region { id: u32, region: u32 },
    /// It is about to read the entry of the page of this number.
    Entry { id: u32, page: u32 },
    /// It is about to map the page into the child, with these bits.
    MapChild { id: u32, page: u32, perm: u32 },
    /// The child has the page, and it is about to be mapped onto itself, so that it is copied when it is written.
    Remap { id: u32, page: u32 },
    /// It is about to give the child the stack of the handler of page faults.
    ChildStack { id: u32 },
    /// It is about to give the child the handler.
    ChildUpcall { id: u32 },
    /// It is about to let the child run.
    ChildRuns { id: u32 },
    /// It was refused something with this answer, and is about to destroy the child.
    Undoing { id: u32, error: u32 },
}

/// fork(), at a stage.
#[derive(Clone, Copy, Debug, PartialEq, Eq)]
pub struct Fork {
    pub at: ForkStage,
}

impl Fork {
    /// fork at a step, if it has this step.
    pub fn at_step(step: Step) -> Option<Fork>
        ensures { result ≡ stages.fork_at step }
    {
        let at = match step {
            Step::Entered => ForkStage::Entered,
            Step::ForkRegion { id, region } => ForkStage::Region { id, region },
            Step::ForkEntry { id, page } => ForkStage::Entry { id, page },
            Step::MapChild { id, page, perm } => ForkStage::MapChild { id, page, perm },
            Step::Remap { id, page } => ForkStage::Remap { id, page },
            Step::ChildStack { id } => ForkStage::ChildStack { id },
            Step::ChildUpcall { id } => ForkStage::ChildUpcall { id },
            Step::ChildRuns { id } => ForkStage::ChildRuns { id },
            Step::Undoing { id, error } => ForkStage::Undoing { id, error },
            _ => return None,
        };
        Some(Fork { at })
    }
}

/// The number of a page, by a word that may hold anything.
pub fn page_of(page: u32) -> u32
    ensures is { result ≡ stages.page_of page }
    ensures below { result < NPTENTRIES * NPTENTRIES }
{
    page % (NPTENTRIES * NPTENTRIES)
}

/// The number of a region, by a word that may hold anything.
pub fn region_of(region: u32) -> u32
    ensures is { result ≡ stages.region_of region }
    ensures below { result < NPTENTRIES }
{
    region % NPTENTRIES
}

/// Where a page begins.
pub fn page_va(page: u32) -> u32
    ensures { result ≡ stages.page_va page }
{
    page_of(page) * PGSIZE
}

/// The greatest page of a region that may be a program's.
pub fn first_page(region: u32) -> u32
    ensures { result ≡ stages.first_page region }
{
    (region_of(region) * NPTENTRIES + (NPTENTRIES - 1)).min(TOP_PAGE - 1)
}

/// Whether an answer is a refusal, which is told as the error's number negated, and not an id.
pub fn is_error(word: u32) -> bool
    ensures { result ≡ stages.is_error word }
{
    word > 0x8000_0000
}

/// Whether an entry's word says that a page, or a region's table, is there.
fn is_there(word: u32) -> bool
    ensures { result ≡ stages.is_there word }
{
    word & PTE_P == PTE_P
}

/// The bits with which a page is mapped into the child: a page of its own that may be written is copied when it is.
fn child_perm(perm: u32) -> u32
    ensures { result ≡ child_perm perm }
{
    let may_write = perm & PTE_W == PTE_W || perm & PTE_COW == PTE_COW;
    if perm & PTE_SHARE == PTE_SHARE || !may_write {
        perm
    } else {
        COW_PERM
    }
}

/// Where fork goes on behind a page.
fn below(id: u32, page: u32) -> Step
    ensures { result ≡ stages.below id page }
{
    if page % NPTENTRIES != 0 {
        Step::ForkEntry { id, page: page - 1 }
    } else if page / NPTENTRIES != 0 {
        Step::ForkRegion {
            id,
            region: page / NPTENTRIES - 1,
        }
    } else {
        Step::ChildStack { id }
    }
}

impl Planned for Fork {
    ghost use Rattle.lib_fork.specs.ForkStages.{forking};

    ghost plan = { forking };

    fn number(&self) -> u32 {
        SERVICE_FORK
    }

    fn ask(&self) -> Ask {
        match self.at {
            ForkStage::Entered => Ask::Exofork,
            ForkStage::Region { id: _, region } => Ask::Load {
                va: UVPD + 4 * region_of(region),
            },
            ForkStage::Entry { id: _, page } => Ask::Load {
                va: UVPT + 4 * page_of(page),
            },
            ForkStage::MapChild { id, page, perm } => Ask::System {
                number: SYS_PAGE_MAP,
                args: [0, page_va(page), id, page_va(page), perm],
            },
            ForkStage::Remap { id: _, page } => Ask::System {
                number: SYS_PAGE_MAP,
                args: [0, page_va(page), 0, page_va(page), COW_PERM],
            },
            ForkStage::ChildStack { id } => Ask::System {
                number: SYS_PAGE_ALLOC,
                args: [id, UXSTACK, STACK_PERM, 0, 0],
            },
            ForkStage::ChildUpcall { id } => Ask::System {
                number: SYS_ENV_SET_PGFAULT_UPCALL,
                args: [id, PGFAULT_UPCALL, 0, 0, 0],
            },
            ForkStage::ChildRuns { id } => Ask::System {
                number: SYS_ENV_SET_STATUS,
                args: [id, ENV_RUNNABLE, 0, 0, 0],
            },
            ForkStage::Undoing { id, error: _ } => Ask::System {
                number: SYS_ENV_DESTROY,
                args: [id, 0, 0, 0, 0],
            },
        }
    }

    fn next(&self, called: Called) -> Next {
        let word = answer_of(called);
        match self.at {
            ForkStage::Entered => {
                if is_error(word) {
                    return Next::Answer(word);
                }
                Next::Show(Step::ForkRegion {
                    id: word,
                    region: TOP_PAGE / NPTENTRIES,
                })
            }
            ForkStage::Region { id, region } => {
                if !is_there(word) {
                    return Next::GoOn(below(id, region_of(region) * NPTENTRIES));
                }
                Next::GoOn(Step::ForkEntry {
                    id,
                    page: first_page(region),
                })
            }
            ForkStage::Entry { id, page } => {
                if !is_there(word) {
                    return Next::GoOn(below(id, page));
                }
                Next::GoOn(Step::MapChild {
                    id,
                    page,
                    perm: child_perm(word & PTE_SYSCALL),
                })
            }
            ForkStage::MapChild { id, page, perm } => {
                if word != 0 {
                    return Next::GoOn(Step::Undoing { id, error: word });
                }
                if perm & PTE_COW == PTE_COW {
                    return Next::GoOn(Step::Remap { id, page });
                }
                Next::GoOn(below(id, page))
            }
            ForkStage::Remap { id, page } => Next::GoOn(below(id, page)),
            ForkStage::ChildStack { id } => {
                if word != 0 {
                    return Next::GoOn(Step::Undoing { id, error: word });
                }
                Next::GoOn(Step::ChildUpcall { id })
            }
            ForkStage::ChildUpcall { id } => Next::GoOn(Step::ChildRuns { id }),
            ForkStage::ChildRuns { id } => Next::Answer(id),
            ForkStage::Undoing { id: _, error } => match called {
                Called::Ended => Next::Gone,
                Called::Answered(_) | Called::Blocked => Next::Answer(error),
            },
        }
    }
}
