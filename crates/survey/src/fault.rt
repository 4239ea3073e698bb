// What can keep a site from being driven and filed. A fault holds the fault of the layer below it.
ghost use Rattle.std.specs.Prelude.{◌≡◌};
ghost use Rattle.std.specs.Result.{result_ok};
ghost use Rattle.sites.specs.declared.fault.SiteFault.TheVariants as site-fault;
ghost use Rattle.survey.specs.declared.fault.Fault.TheVariants as the-fault;
ghost use Rattle.survey.specs.Faults.{failure_of, layer_number, size_fault_of};

use drive::refusal::Refusal;
use filing::fault::PenFault;
use floor::extent::SizeFault;
use sites::fault::SiteFault;
use std::alloc::AllocError;
use texts::fault::{HeadingFault, Report};

#[derive(Clone, Copy, PartialEq, Eq, Debug)]
pub enum Fault {
    // The text describes no site.
    Site(SiteFault),
    // The drive refuses a call.
    Drive(Refusal),
    // The record cannot be written.
    Record(PenFault),
    // There is no memory for the drive.
    NoMemory,
}

// The layers of which a fault is one, by the numbers that the program prints.
#[derive(Clone, Copy, PartialEq, Eq, Debug)]
pub enum Layer {
    Text = 1,
    Site = 2,
    Drive = 3,
    Record = 4,
}

impl Layer {
    pub fn number(self) -> u32
        ensures { result ≡ layer_number self }
    {
        self as u32
    }
}

// A fault as the program prints it.
#[derive(Clone, Copy, PartialEq, Eq, Debug)]
pub struct Failure {
    pub layer: Layer,
    pub report: Report,
}

// Want of memory is not printed as a fault of the site.
impl TryFrom<Fault> for Failure {
    type Error = AllocError;

    ghost try_from_gives = { λ fault r. result_ok r ≡ failure_of fault };

    fn try_from(fault: Fault) -> Result<Failure, AllocError> {
        let (layer, report) = match fault {
            Fault::Site(SiteFault::Text(fault)) => (Layer::Text, Report::from(fault)),
            Fault::Site(fault) => (Layer::Site, Report::from(fault)),
            Fault::Drive(refusal) => (Layer::Drive, Report::nowhere(refusal.number())),
            Fault::Record(fault) => (Layer::Record, Report::from(fault)),
            Fault::NoMemory => return Err(AllocError),
        };
        Ok(Failure { layer, report })
    }
}

impl From<AllocError> for Fault {
    ghost from_gives = { λ _ r. r ≡ the-fault.NoMemory };

    fn from(_: AllocError) -> Fault {
        Fault::NoMemory
    }
}

impl From<SiteFault> for Fault {
    ghost from_gives = { λ fault r. r ≡ the-fault.Site fault };

    fn from(inner: SiteFault) -> Fault {
        Fault::Site(inner)
    }
}

impl From<HeadingFault> for Fault {
    ghost from_gives = { λ fault r. r ≡ the-fault.Site (site-fault.Heading fault) };

    fn from(inner: HeadingFault) -> Fault {
        Fault::Site(SiteFault::from(inner))
    }
}

impl From<Refusal> for Fault {
    ghost from_gives = { λ refusal r. r ≡ the-fault.Drive refusal };

    fn from(inner: Refusal) -> Fault {
        Fault::Drive(inner)
    }
}

impl From<PenFault> for Fault {
    ghost from_gives = { λ fault r. r ≡ the-fault.Record fault };

    fn from(inner: PenFault) -> Fault {
        Fault::Record(inner)
    }
}

// A size of the floor is that of the site's first line.
impl From<SizeFault> for Fault {
    ghost from_gives = { λ fault r. r ≡ size_fault_of fault };

    fn from(fault: SizeFault) -> Fault {
        Fault::from(HeadingFault::from(fault))
    }
}
