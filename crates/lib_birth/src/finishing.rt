//! spawn, whose child has the bytes of all segments: what it asks at each stage, and what it does next.

ghost use Rattle.std.specs.Prelude.{◌≡◌, ◌+◌};
ghost use Rattle.lib_stage.specs.Asks.{IsAligned};
ghost use Rattle.lib_child.specs.ChildSegments as segments;
ghost use Rattle.lib_birth.specs.FinishingStages as stages;

use jos_base::{
    ENV_RUNNABLE, NPTENTRIES, PGSIZE, PTE_SYSCALL, SYS_ENV_SET_PGFAULT_UPCALL, SYS_ENV_SET_STATUS,
    SYS_PAGE_ALLOC, SYS_PAGE_MAP, USTACKTOP, UTEMP, UVPT,
};
use jos_elf::{PF_W, PT_LOAD};
use lib_child::{Child, READABLE_PERM, WRITABLE_PERM, last_page, rights_from, unless_refused};
use lib_fd::{ask_drop_at, descriptor_va, is_there};
use lib_fork::{first_page, page_of, page_va, region_of};
use lib_image::{
    SEGMENT_ADDRESS, SEGMENT_FLAGS, SEGMENT_KIND, SEGMENT_MEMORY, ask_segment, go_on, show,
};
use lib_os::{
    DESCRIPTORS, FinishingStep, PGFAULT_UPCALL, PTE_SHARE, SPAWN_GIVEN, SPAWN_STACK, SpawnStep,
    UVPD, UXSTACK,
};
use lib_stage::{Ask, Next};

/// The greatest region in which a program may have pages.
const TOP_REGION: u32 = USTACKTOP / PGSIZE / NPTENTRIES;

/// No descriptor has this number.
const NO_DESCRIPTOR: u32 = DESCRIPTORS as u32;

/// What is asked to map a page of one environment as that of another one, or as its own with other bits.
fn ask_page(source: u32, target: u32, page: u32, perm: u32) -> Ask
    ensures { result ≡ stages.page_asked source target page perm }
{
    Ask::System {
        number: SYS_PAGE_MAP,
        args: [source, page_va(page), target, page_va(page), perm],
    }
}

/// What is asked at a stage.
pub(crate) fn ask_of_finishing(at: FinishingStep) -> Ask
    ensures is { result ≡ stages.finishing_asks at }
    ensures aligned { IsAligned result }
{
    match at {
        FinishingStep::RightsKind { header, .. } => ask_segment(header, SEGMENT_KIND),
        FinishingStep::RightsFlags { header, .. } => ask_segment(header, SEGMENT_FLAGS),
        FinishingStep::RightsMemory { header, .. } => ask_segment(header, SEGMENT_MEMORY),
        FinishingStep::RightsAddress { header, .. } => ask_segment(header, SEGMENT_ADDRESS),
        FinishingStep::SharedKind { other, .. } => ask_segment(other, SEGMENT_KIND),
        FinishingStep::SharedFlags { other, .. } => ask_segment(other, SEGMENT_FLAGS),
        FinishingStep::SharedMemory { other, .. } => ask_segment(other, SEGMENT_MEMORY),
        FinishingStep::SharedAddress { other, .. } => ask_segment(other, SEGMENT_ADDRESS),
        FinishingStep::RightsPage { child, page, .. } => {
            ask_page(child, child, page, READABLE_PERM)
        }
        FinishingStep::ChildStack { child, .. } => Ask::System {
            number: SYS_PAGE_ALLOC,
            args: [child, UXSTACK, WRITABLE_PERM, 0, 0],
        },
        FinishingStep::ChildUpcall { child, .. } => Ask::System {
            number: SYS_ENV_SET_PGFAULT_UPCALL,
            args: [child, PGFAULT_UPCALL, 0, 0, 0],
        },
        FinishingStep::GivingStack { child, .. } => Ask::System {
            number: SYS_PAGE_MAP,
            args: [0, SPAWN_STACK, child, USTACKTOP - PGSIZE, WRITABLE_PERM],
        },
        FinishingStep::ReleasingStack { .. } => ask_drop_at(SPAWN_STACK),
        FinishingStep::ReleasingGiven { .. } => ask_drop_at(SPAWN_GIVEN),
        FinishingStep::ReleasingPath { .. } => ask_drop_at(UTEMP),
        FinishingStep::DroppingFile { fd, .. } => ask_drop_at(descriptor_va(fd)),
        FinishingStep::PassingRegion { region, .. } => Ask::Load {
            va: UVPD + 4 * region_of(region),
        },
        FinishingStep::PassingEntry { page, .. } => Ask::Load {
            va: UVPT + 4 * page_of(page),
        },
        FinishingStep::PassingPage { child, page, perm } => ask_page(0, child, page, perm),
        FinishingStep::ChildRuns { child } => Ask::System {
            number: SYS_ENV_SET_STATUS,
            args: [child, ENV_RUNNABLE, 0, 0, 0],
        },
    }
}

/// Whether a segment that begins at an address, with so many bytes of memory, has a part of a page.
fn touches(page: u32, va: u32, memory: u32) -> bool
    ensures { result ≡ stages.touches page va memory }
{
    va / PGSIZE <= page && page <= last_page(va, memory)
}

/// Pages of a segment whose rights are taken: from `page` up to `end`.
#[derive(Clone, Copy, Debug)]
struct Pages {
    /// The child, and its file.
    of: Child,
    /// The program header of the segment.
    header: u32,
    /// The first of the pages.
    page: u32,
    /// Behind the last of them.
    end: u32,
}

/// The pages without the first and the last, where another segment has a part of these.
fn pages_without(pages: Pages, va: u32, memory: u32) -> Pages
    ensures of { result.of ≡ pages.of }
    ensures header { result.header ≡ pages.header }
    ensures page { result.page ≡ stages.page_without pages.page va memory }
    ensures end { result.end ≡ stages.end_without pages.end va memory }
{
    let Pages { page, end, .. } = pages;
    let last = end.saturating_sub(1);
    Pages {
        page: if touches(page, va, memory) {
            page + 1
        } else {
            page
        },
        end: if touches(last, va, memory) { last } else { end },
        ..pages
    }
}

/// The rights of the pages of this segment are taken, or it keeps all of them.
fn rights_behind_segment(of: Child, header: u32) -> SpawnStep
    ensures { result ≡ segments.rights_from of.fd of.headers of.child (header + 1) }
{
    rights_from(of, header.saturating_add(1))
}

/// No segment that may be written has a part of the pages, of those before the other one.
fn others_from(pages: Pages, other: u32) -> SpawnStep
    ensures { result ≡ stages.others_from pages.of.fd pages.of.headers pages.of.child pages.header pages.page pages.end other }
{
    let Pages {
        of,
        header,
        page,
        end,
    } = pages;
    if page >= end {
        return rights_behind_segment(of, header);
    }
    let Child { fd, headers, child } = of;
    let at = if other < headers {
        FinishingStep::SharedKind {
            fd,
            headers,
            child,
            header,
            page,
            end,
            other,
        }
    } else {
        FinishingStep::RightsPage {
            fd,
            headers,
            child,
            header,
            page,
            end,
        }
    };
    SpawnStep::Finishing { at }
}

/// The other one has no part of the pages, either.
fn others_behind(pages: Pages, other: u32) -> SpawnStep
    ensures { result ≡ stages.others_from pages.of.fd pages.of.headers pages.of.child pages.header pages.page pages.end (other + 1) }
{
    others_from(pages, other.saturating_add(1))
}

/// The rights of the first of the pages are taken.
fn rights_behind(pages: Pages) -> SpawnStep
    ensures { result ≡ stages.rights_behind pages.of.fd pages.of.headers pages.of.child pages.header pages.page pages.end }
{
    let Pages {
        of,
        header,
        page,
        end,
    } = pages;
    let next = page.saturating_add(1);
    if next >= end {
        return rights_behind_segment(of, header);
    }
    let Child { fd, headers, child } = of;
    SpawnStep::Finishing {
        at: FinishingStep::RightsPage {
            fd,
            headers,
            child,
            header,
            page: next,
            end,
        },
    }
}

/// Where it goes on behind a page of its own that is passed on, or passed over.
fn passed_below(child: u32, page: u32) -> SpawnStep
    ensures { result ≡ stages.passed_below child page }
{
    let at = if page % NPTENTRIES != 0 {
        FinishingStep::PassingEntry {
            child,
            page: page - 1,
        }
    } else if page / NPTENTRIES != 0 {
        FinishingStep::PassingRegion {
            child,
            region: page / NPTENTRIES - 1,
        }
    } else {
        FinishingStep::ChildRuns { child }
    };
    SpawnStep::Finishing { at }
}

/// By whether a region of its own has a table.
fn region_passed(child: u32, region: u32, word: u32) -> SpawnStep
    ensures { result ≡ stages.region_passed child region word }
{
    if !is_there(word) {
        return passed_below(child, region_of(region) * NPTENTRIES);
    }
    SpawnStep::Finishing {
        at: FinishingStep::PassingEntry {
            child,
            page: first_page(region),
        },
    }
}

/// By whether a page of its own is there, and shared.
fn entry_passed(child: u32, page: u32, word: u32) -> SpawnStep
    ensures { result ≡ stages.entry_passed child page word }
{
    if is_there(word) && word & PTE_SHARE == PTE_SHARE {
        return SpawnStep::Finishing {
            at: FinishingStep::PassingPage {
                child,
                page,
                perm: word & PTE_SYSCALL,
            },
        };
    }
    passed_below(child, page)
}

/// What is done next at a stage, by the word that came.
pub(crate) fn next_of_finishing(at: FinishingStep, word: u32) -> Next
    ensures { result ≡ stages.finishing_next at word }
{
    let at = match at {
        FinishingStep::RightsKind {
            fd,
            headers,
            child,
            header,
        } => {
            if word == PT_LOAD {
                SpawnStep::Finishing {
                    at: FinishingStep::RightsFlags {
                        fd,
                        headers,
                        child,
                        header,
                    },
                }
            } else {
                rights_behind_segment(Child { fd, headers, child }, header)
            }
        }
        FinishingStep::RightsFlags {
            fd,
            headers,
            child,
            header,
        } => {
            if word & PF_W == 0 {
                SpawnStep::Finishing {
                    at: FinishingStep::RightsMemory {
                        fd,
                        headers,
                        child,
                        header,
                    },
                }
            } else {
                rights_behind_segment(Child { fd, headers, child }, header)
            }
        }
        FinishingStep::RightsMemory {
            fd,
            headers,
            child,
            header,
        } => {
            if word == 0 {
                rights_behind_segment(Child { fd, headers, child }, header)
            } else {
                SpawnStep::Finishing {
                    at: FinishingStep::RightsAddress {
                        fd,
                        headers,
                        child,
                        header,
                        memory: word,
                    },
                }
            }
        }
        FinishingStep::RightsAddress {
            fd,
            headers,
            child,
            header,
            memory,
        } => {
            let pages = Pages {
                of: Child { fd, headers, child },
                header,
                page: word / PGSIZE,
                end: last_page(word, memory) + 1,
            };
            others_from(pages, 0)
        }
        FinishingStep::SharedKind {
            fd,
            headers,
            child,
            header,
            page,
            end,
            other,
        } => {
            if word == PT_LOAD {
                SpawnStep::Finishing {
                    at: FinishingStep::SharedFlags {
                        fd,
                        headers,
                        child,
                        header,
                        page,
                        end,
                        other,
                    },
                }
            } else {
                let of = Child { fd, headers, child };
                let pages = Pages {
                    of,
                    header,
                    page,
                    end,
                };
                others_behind(pages, other)
            }
        }
        FinishingStep::SharedFlags {
            fd,
            headers,
            child,
            header,
            page,
            end,
            other,
        } => {
            if word & PF_W == 0 {
                let of = Child { fd, headers, child };
                let pages = Pages {
                    of,
                    header,
                    page,
                    end,
                };
                others_behind(pages, other)
            } else {
                SpawnStep::Finishing {
                    at: FinishingStep::SharedMemory {
                        fd,
                        headers,
                        child,
                        header,
                        page,
                        end,
                        other,
                    },
                }
            }
        }
        FinishingStep::SharedMemory {
            fd,
            headers,
            child,
            header,
            page,
            end,
            other,
        } => {
            if word == 0 {
                let of = Child { fd, headers, child };
                let pages = Pages {
                    of,
                    header,
                    page,
                    end,
                };
                others_behind(pages, other)
            } else {
                SpawnStep::Finishing {
                    at: FinishingStep::SharedAddress {
                        fd,
                        headers,
                        child,
                        header,
                        page,
                        end,
                        other,
                        other_memory: word,
                    },
                }
            }
        }
        FinishingStep::SharedAddress {
            fd,
            headers,
            child,
            header,
            page,
            end,
            other,
            other_memory,
        } => {
            let of = Child { fd, headers, child };
            let pages = Pages {
                of,
                header,
                page,
                end,
            };
            others_behind(pages_without(pages, word, other_memory), other)
        }
        FinishingStep::RightsPage {
            fd,
            headers,
            child,
            header,
            page,
            end,
        } => {
            let of = Child { fd, headers, child };
            let pages = Pages {
                of,
                header,
                page,
                end,
            };
            return unless_refused(fd, child, word, rights_behind(pages));
        }
        FinishingStep::ChildStack { fd, child } => {
            let at = FinishingStep::ChildUpcall { fd, child };
            return unless_refused(fd, child, word, SpawnStep::Finishing { at });
        }
        FinishingStep::ChildUpcall { fd, child } => SpawnStep::Finishing {
            at: FinishingStep::GivingStack { fd, child },
        },
        FinishingStep::GivingStack { fd, child } => {
            let at = FinishingStep::ReleasingStack { fd, child };
            return unless_refused(fd, child, word, SpawnStep::Finishing { at });
        }
        FinishingStep::ReleasingStack { fd, child } => SpawnStep::Finishing {
            at: FinishingStep::ReleasingGiven { fd, child },
        },
        FinishingStep::ReleasingGiven { fd, child } => SpawnStep::Finishing {
            at: FinishingStep::ReleasingPath { fd, child },
        },
        FinishingStep::ReleasingPath { fd, child } => SpawnStep::Finishing {
            at: FinishingStep::DroppingFile { fd, child },
        },
        FinishingStep::DroppingFile { fd: _, child } => {
            return show(SpawnStep::Finishing {
                at: FinishingStep::PassingRegion {
                    child,
                    region: TOP_REGION,
                },
            });
        }
        FinishingStep::PassingRegion { child, region } => region_passed(child, region, word),
        FinishingStep::PassingEntry { child, page } => entry_passed(child, page, word),
        FinishingStep::PassingPage { child, page, .. } => {
            return unless_refused(NO_DESCRIPTOR, child, word, passed_below(child, page));
        }
        FinishingStep::ChildRuns { child } => return Next::Answer(child),
    };
    go_on(at)
}
