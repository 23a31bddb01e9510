//! Why binding stops.

ghost use Rattle.std.specs.Prelude.{◌≡◌};
ghost use Rattle.sq_binder.specs.Binds.{about, broken};
ghost use Rattle.sq_binder.specs.declared.stop.Stop.TheVariants.{NoMemory};

use sq_lex::Name;
use sq_meaning::BindingFault;
use std::alloc::AllocError;

/// The rule that a part of a text breaks.
#[derive(Clone, Copy, Debug)]
pub struct Fault {
    pub rule: BindingFault,
    /// The table, column, parameter or cursor that it is about, by its name in the text. The definitions name none, so nothing
    /// is promised of it.
    pub about: Option<Name>,
}

/// Why a part of a text is not bound.
#[derive(Clone, Copy, Debug)]
pub enum Stop {
    Fault(Fault),
    /// Memory ran out.
    NoMemory,
}

impl Stop {
    /// The rule is broken, by no name of its own.
    pub fn broken(rule: BindingFault) -> Stop
        ensures { result ≡ broken rule }
    {
        Stop::Fault(Fault { rule, about: None })
    }

    /// A broken rule, with the name that breaks it.
    pub fn about(rule: BindingFault, name: Name) -> Stop
        ensures { result ≡ about rule name }
    {
        Stop::Fault(Fault {
            rule,
            about: Some(name),
        })
    }
}

impl From<AllocError> for Stop {
    ghost from_gives = { λ _ stop. stop ≡ NoMemory };

    fn from(_error: AllocError) -> Stop {
        Stop::NoMemory
    }
}
