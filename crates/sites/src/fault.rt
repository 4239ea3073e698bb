// What can be wrong with a site text. A fault holds the fault of the layer below it.
ghost use Rattle.std.specs.Prelude.{◌≡◌};
ghost use Rattle.sites.specs.declared.fault.SiteFault.TheVariants as site-fault;
ghost use Rattle.sites.specs.Faults.{site_report};

use texts::fault::{HeadingFault, Place, Report, TextFault};

// A site text that describes no site.
#[derive(Clone, Copy, PartialEq, Eq, Debug)]
pub enum SiteFault {
    Text(TextFault),
    Heading(HeadingFault),
    // The text has over 4,096 bytes.
    TooLong,
    // The floor has over 512 cells.
    TooLarge(Place),
    // A sheet byte is neither passable nor rock.
    Foreign(Place),
    // The start is no cell of the floor.
    StartOffFloor(Place),
    // The start is a rock cell.
    StartOnRock(Place),
    // The goal is no cell of the floor.
    GoalOffFloor(Place),
}

impl From<SiteFault> for Report {
    ghost from_gives = { λ fault r. r ≡ site_report fault };

    fn from(fault: SiteFault) -> Report {
        match fault {
            SiteFault::Text(fault) => Report::from(fault),
            SiteFault::Heading(fault) => Report::from(fault),
            SiteFault::TooLong => Report::nowhere(26),
            SiteFault::TooLarge(place) => Report::at(25, place),
            SiteFault::Foreign(place) => Report::at(3, place),
            SiteFault::StartOffFloor(place) => Report::at(6, place),
            SiteFault::StartOnRock(place) => Report::at(7, place),
            SiteFault::GoalOffFloor(place) => Report::at(8, place),
        }
    }
}

impl From<TextFault> for SiteFault {
    ghost from_gives = { λ below r. r ≡ site-fault.Text below };

    fn from(below: TextFault) -> SiteFault {
        SiteFault::Text(below)
    }
}

impl From<HeadingFault> for SiteFault {
    ghost from_gives = { λ below r. r ≡ site-fault.Heading below };

    fn from(below: HeadingFault) -> SiteFault {
        SiteFault::Heading(below)
    }
}
