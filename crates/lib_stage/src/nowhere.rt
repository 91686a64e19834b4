//! A step that a service has not.

ghost use Rattle.std.specs.Prelude.{◌≡◌};

use crate::ask::{Ask, Next};
use crate::driving::Planned;
use jos_base::{Called, SYS_GETENVID};
use lib_os::SERVICES;

/// A step that the service has not, at which no environment stands. It asks for its id, since each step makes one call, and
/// is over.
#[derive(Clone, Copy, Debug, PartialEq, Eq)]
pub struct Nowhere;

impl Planned for Nowhere {
    ghost use Rattle.lib_stage.specs.ServiceSteps.{nowhere};

    ghost plan = { λ it. nowhere };

    fn number(&self) -> u32 {
        SERVICES
    }

    fn ask(&self) -> Ask {
        Ask::System {
            number: SYS_GETENVID,
            args: [0; 5],
        }
    }

    fn next(&self, _called: Called) -> Next {
        Next::Gone
    }
}
