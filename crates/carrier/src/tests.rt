// The carriers on streets of 3 by 3 cells.
use crate::Carrier;
use crate::pillar::Pillar;
use crate::pillars::Pillars;
use crate::sheet::Sheet;
use crate::unfit::Unfit;
use floor::streets::Streets;
use std::process::Abort;
use std::test::Fail;

const MIDDLE: Pillar = Pillar {
    left: 1,
    top: 1,
    right: 1,
    bottom: 1,
};

// From the cell before the rock in the middle to the one above.
fn goes_round<C: Carrier>(rt: &impl Abort, carrier: &mut C) {
    assert_eq!(rt; carrier.feel(), 1);
    assert_eq!(rt; carrier.step(1), false);
    assert_eq!(rt; carrier.cell(), 3);
    assert_eq!(rt; carrier.step(7), true);
    assert_eq!(rt; carrier.cell(), 0);
}

// The number of a refusal.
fn number<C: Drop>(made: Result<C, Unfit>) -> Option<u32> {
    match made {
        Ok(_) => None,
        Err(unfit) => unfit.number(),
    }
}

#[test]
fn a_byte_and_a_pillar_are_one_rock(rt: HostRuntime) -> Result<(), Fail> {
    let streets = Streets::new(3, 3)?;
    let mut sheet = Sheet::new(rt.alloc(), streets, b"....#....", 3)?;
    goes_round(&rt, &mut sheet);
    let mut pillars = Pillars::new(rt.alloc(), streets, 3, &[MIDDLE], 3)?;
    goes_round(&rt, &mut pillars);
    Ok(())
}

#[test]
fn sheets_are_refused(rt: HostRuntime) -> Result<(), Fail> {
    let streets = Streets::new(3, 3)?;
    assert_eq!(rt;
        number(Sheet::new(rt.alloc(), streets, b"....x...", 9)),
        Some(2)
    );
    assert_eq!(rt;
        number(Sheet::new(rt.alloc(), streets, b"..x.#.x..", 9)),
        Some(3)
    );
    assert_eq!(rt;
        Sheet::new(rt.alloc(), streets, b"..x.#.x..", 9).err(),
        Some(Unfit::Foreign(2))
    );
    assert_eq!(rt;
        number(Sheet::new(rt.alloc(), streets, b"....#....", 9)),
        Some(6)
    );
    assert_eq!(rt;
        number(Sheet::new(rt.alloc(), streets, b"....#....", 4)),
        Some(7)
    );
    Ok(())
}

#[test]
fn pillars_are_refused(rt: HostRuntime) -> Result<(), Fail> {
    let streets = Streets::new(3, 3)?;
    assert_eq!(rt;
        number(Pillars::new(rt.alloc(), streets, 3, &[MIDDLE; 65], 9)),
        Some(4)
    );
    assert_eq!(rt;
        number(Pillars::new(rt.alloc(), streets, 3, &[MIDDLE; 64], 9)),
        Some(6)
    );
    assert_eq!(rt;
        number(Pillars::new(rt.alloc(), streets, 3, &[MIDDLE; 64], 4)),
        Some(7)
    );
    Ok(())
}

#[test]
fn crossed_or_off_the_floor_is_no_rock(rt: HostRuntime) -> Result<(), Fail> {
    let crossed = Pillar {
        left: 2,
        right: 0,
        ..MIDDLE
    };
    let outside = Pillar {
        top: 3,
        bottom: 9,
        ..MIDDLE
    };
    let pillars = Pillars::new(rt.alloc(), Streets::new(3, 3)?, 3, &[crossed, outside], 4)?;
    assert_eq!(rt; pillars.feel(), 0);
    Ok(())
}
