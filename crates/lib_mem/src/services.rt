//! The services, each one step: what they ask, and what they do next.

ghost use Rattle.std.specs.Prelude.{◌≡◌};
ghost use Rattle.lib_mem.specs.MemoryPlans as plans;

use jos_base::{
    CPUTS_MAX, Called, E_INVAL, PTE_P, PTE_U, PTE_W, SYS_CPUTS, SYS_GETENVID, SYS_PAGE_ALLOC,
    SYS_PAGE_UNMAP, SYS_YIELD,
};
use lib_os::{
    PTE_SHARE, SERVICE_CPUTS, SERVICE_GETID, SERVICE_PAGE_DROP, SERVICE_PAGE_NEW, SERVICE_YIELD,
    SERVICES, Service, is_buffer, is_page_inside,
};
use lib_stage::{Ask, Next, Planned};

/// All flags of a new page.
const PAGE_FLAGS: u32 = 3;

/// A service with what it was given.
#[derive(Clone, Copy, Debug, PartialEq, Eq)]
pub enum MemoryService {
    /// cputs(va, len): all bytes are printed, or the environment ends.
    Cputs { va: u32, len: u32 },
    /// getid()
    GetId,
    /// yield()
    Yield,
    /// page_new(va, flags): a page of zeros, in the place of what stood there.
    PageNew { va: u32, flags: u32 },
    /// page_drop(va)
    PageDrop { va: u32 },
    /// A number that names no service.
    Unknown,
}

impl MemoryService {
    /// The service, if it is one of these.
    pub fn of(service: Service) -> Option<MemoryService>
        ensures { result ≡ plans.memory_service service }
    {
        match service {
            Service::Cputs { va, len } => Some(MemoryService::Cputs { va, len }),
            Service::GetId => Some(MemoryService::GetId),
            Service::Yield => Some(MemoryService::Yield),
            Service::PageNew { va, flags } => Some(MemoryService::PageNew { va, flags }),
            Service::PageDrop { va } => Some(MemoryService::PageDrop { va }),
            Service::Unknown => Some(MemoryService::Unknown),
            _ => None,
        }
    }
}

/// The bits of the entry of a page that is made by these flags: bit 0 says that it may be written, bit 1 that it is shared.
fn perm_of_flags(flags: u32) -> u32
    ensures { result ≡ plans.perm_of_flags flags }
{
    let write = if flags & 1 == 1 { PTE_W } else { 0 };
    let share = if flags & 2 == 2 { PTE_SHARE } else { 0 };
    PTE_P + PTE_U + write + share
}

/// Whether what stands in the registers is refused.
fn is_refused(service: MemoryService) -> bool
    ensures { result ≡ plans.is_refused service }
{
    match service {
        MemoryService::Cputs { va, len } => len > CPUTS_MAX || !is_buffer(va, len),
        MemoryService::PageNew { va, flags } => flags > PAGE_FLAGS || !is_page_inside(va),
        MemoryService::PageDrop { va } => !is_page_inside(va),
        MemoryService::Unknown => true,
        MemoryService::GetId | MemoryService::Yield => false,
    }
}

/// The call by which it is done.
fn ask_of(service: MemoryService) -> Ask
    ensures { result ≡ plans.ask_of service }
{
    match service {
        MemoryService::Cputs { va, len } => Ask::System {
            number: SYS_CPUTS,
            args: [va, len, 0, 0, 0],
        },
        MemoryService::GetId | MemoryService::Unknown => Ask::System {
            number: SYS_GETENVID,
            args: [0; 5],
        },
        MemoryService::Yield => Ask::System {
            number: SYS_YIELD,
            args: [0; 5],
        },
        MemoryService::PageNew { va, flags } => Ask::System {
            number: SYS_PAGE_ALLOC,
            args: [0, va, perm_of_flags(flags), 0, 0],
        },
        MemoryService::PageDrop { va } => Ask::System {
            number: SYS_PAGE_UNMAP,
            args: [0, va, 0, 0, 0],
        },
    }
}

impl Planned for MemoryService {
    ghost use Rattle.lib_mem.specs.MemoryPlans.{memory_plan};

    ghost plan = { memory_plan };

    fn number(&self) -> u32 {
        match *self {
            MemoryService::Cputs { va: _, len: _ } => SERVICE_CPUTS,
            MemoryService::GetId => SERVICE_GETID,
            MemoryService::Yield => SERVICE_YIELD,
            MemoryService::PageNew { va: _, flags: _ } => SERVICE_PAGE_NEW,
            MemoryService::PageDrop { va: _ } => SERVICE_PAGE_DROP,
            MemoryService::Unknown => SERVICES,
        }
    }

    fn ask(&self) -> Ask {
        if is_refused(*self) {
            // each step makes one call
            return Ask::System {
                number: SYS_GETENVID,
                args: [0; 5],
            };
        }
        ask_of(*self)
    }

    fn next(&self, called: Called) -> Next {
        if is_refused(*self) {
            return Next::Answer(E_INVAL.wrapping_neg());
        }
        match called {
            Called::Answered(word) => Next::Answer(word),
            Called::Ended | Called::Blocked => Next::Gone,
        }
    }
}
