// Small galleries, driven by the calls.
use crate::begin::{begin, vet};
use crate::refusal::Refusal;
use board::square::Square;
use carrier::sheet::Sheet;
use floor::aiming::Aimed;
use floor::kings::Kings;
use floor::streets::Streets;
use measure::queue::Entry;
use measure::{Length, Measure};
use model::{Mark, Phase};
use reconnect::state::Outcome;
use std::test::Fail;

// A board and a queue for up to nine cells.
fn memory() -> ([Square<Length>; 9], [Entry<Length>; 73]) {
    let entry = Entry {
        value: Length::zero(),
        cell: 0,
    };
    ([Square::new(Mark::Unseen, 0); 9], [entry; 73])
}

#[test]
fn round_a_rock(rt: HostRuntime) -> Result<(), Fail> {
    let streets = Streets::new(3, 3)?;
    let mut carrier = Sheet::new(rt.alloc(), streets, b"....#....", 3)?;
    let (mut board, mut queue) = memory();
    let mut drive = begin(&carrier, Aimed::new(streets, 5), &mut board, &queue);
    assert_eq!(rt; drive.look(&carrier, &mut board, &mut queue), Ok((1, 1)));
    assert_eq!(rt; drive.go(&mut carrier, &board), Err(Refusal::WrongPhase));
    assert_eq!(rt;
        drive.think(&mut board, &mut queue, 0),
        Err(Refusal::NoSteps)
    );
    assert_eq!(rt; drive.think(&mut board, &mut queue, 3), Ok((3, None)));
    let joined = Some(Outcome::Joined(0, 5));
    assert_eq!(rt; drive.think(&mut board, &mut queue, 100), Ok((4, joined)));
    assert_eq!(rt; drive.go(&mut carrier, &board), Ok(0));
    Ok(())
}

#[test]
fn shut_off(rt: HostRuntime) -> Result<(), Fail> {
    let streets = Streets::new(3, 1)?;
    let mut carrier = Sheet::new(rt.alloc(), streets, b"..#", 0)?;
    let (mut board, mut queue) = memory();
    let mut drive = begin(&carrier, Aimed::new(streets, 2), &mut board, &queue);
    assert_eq!(rt; drive.look(&carrier, &mut board, &mut queue), Ok((0, 0)));
    assert_eq!(rt; drive.go(&mut carrier, &board), Ok(1));
    assert_eq!(rt; drive.look(&carrier, &mut board, &mut queue), Ok((1, 1)));
    let shut = Some(Outcome::Shut);
    assert_eq!(rt; drive.think(&mut board, &mut queue, 100), Ok((5, shut)));
    let told = drive.tell();
    assert_eq!(rt; told.phase, Phase::Shut);
    assert_eq!(rt;
        (told.moves, told.length, told.found, told.searches),
        (1, 5, 1, 1)
    );
    Ok(())
}

#[test]
fn between_two_rocks(rt: HostRuntime) -> Result<(), Fail> {
    let kings = Kings::new(2, 2)?;
    let mut carrier = Sheet::new(rt.alloc(), kings, b".##.", 0)?;
    let (mut board, mut queue) = memory();
    let mut drive = begin(&carrier, Aimed::new(kings, 3), &mut board, &queue);
    assert_eq!(rt; drive.look(&carrier, &mut board, &mut queue), Ok((5, 2)));
    assert_eq!(rt; drive.go(&mut carrier, &board), Ok(3));
    assert_eq!(rt; drive.tell().phase, Phase::Arrived);
    assert_eq!(rt; drive.tell().length, 7);
    assert_eq!(rt;
        drive.look(&carrier, &mut board, &mut queue),
        Err(Refusal::WrongPhase)
    );
    Ok(())
}

#[test]
fn a_goal_off_the_floor(rt: HostRuntime) -> Result<(), Fail> {
    let streets = Streets::new(3, 3)?;
    let carrier = Sheet::new(rt.alloc(), streets, b".........", 0)?;
    let (mut board, mut queue) = memory();
    let mut drive = begin(&carrier, Aimed::new(streets, 9), &mut board, &queue);
    assert_eq!(rt;
        drive.look(&carrier, &mut board, &mut queue),
        Err(Refusal::GoalOffFloor)
    );
    assert_eq!(rt; drive.tell().phase, Phase::Void);
    Ok(())
}

#[test]
fn too_little_memory(rt: HostRuntime) -> Result<(), Fail> {
    let streets = Streets::new(3, 3)?;
    let carrier = Sheet::new(rt.alloc(), streets, b".........", 0)?;
    let guide = Aimed::new(streets, 8);
    let (board, queue) = memory();
    let few = [Entry {
        value: Length::zero(),
        cell: 0,
    }; 72];
    assert_eq!(rt; vet(&carrier, &guide, &board, &queue), Ok(()));
    assert_eq!(rt;
        vet(&carrier, &guide, &board[..8], &few),
        Err(Refusal::ShortBoard)
    );
    assert_eq!(rt;
        vet(&carrier, &guide, &board, &few),
        Err(Refusal::ShortQueue)
    );
    Ok(())
}
