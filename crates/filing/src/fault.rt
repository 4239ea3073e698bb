// What can be wrong with a record that is written.
ghost use Rattle.std.specs.Prelude.{◌≡◌};
ghost use Rattle.filing.specs.declared.fault.PenFault.TheVariants as pen-fault;
ghost use Rattle.filing.specs.Faults.{pen_report};

use texts::fault::{HeadingFault, Report};

// A record that cannot be begun or gone on with.
#[derive(Clone, Copy, PartialEq, Eq, Debug)]
pub enum PenFault {
    Heading(HeadingFault),
    // The buffer is full, or row numbers are used up.
    Full,
}

impl From<HeadingFault> for PenFault {
    ghost from_gives = { λ fault r. r ≡ pen-fault.Heading fault };

    fn from(fault: HeadingFault) -> PenFault {
        PenFault::Heading(fault)
    }
}

impl From<PenFault> for Report {
    ghost from_gives = { λ fault r. r ≡ pen_report fault };

    fn from(fault: PenFault) -> Report {
        match fault {
            PenFault::Heading(heading) => Report::from(heading),
            PenFault::Full => Report::nowhere(30),
        }
    }
}
