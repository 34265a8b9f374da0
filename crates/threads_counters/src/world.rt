use sdls_base::KeyId;
use sdls_world::{Step, World};
use std::alloc::Global;
use std::test::Fail;

const ACTOR: u64 = 7;

// A block of four numbers from n on, stored and lifted under the turn.
fn reserve(world: &mut World, key: KeyId, mark: u64) -> Option<()> {
    let steps = [
        Step::Take { actor: ACTOR },
        Step::Write {
            actor: ACTOR,
            key,
            mark,
        },
        Step::Sync { actor: ACTOR },
        Step::Lift { actor: ACTOR, key },
        Step::Give { actor: ACTOR },
    ];
    world.run(&steps).ok()
}

// Draws a number, and uses it where it is funded.
fn use_one(world: &mut World, key: KeyId) -> Option<()> {
    let steps = [
        Step::Arm { actor: ACTOR, key },
        Step::Draw { actor: ACTOR },
        Step::Peek { actor: ACTOR },
        Step::Spend { actor: ACTOR },
    ];
    world.run(&steps).ok()
}

// A key whose mark is 1, and a block of 4: number 1 is drawn above the limit, and each that follows is used below the
// mark that was stored.
fn four_numbers(alloc: Global, key: KeyId) -> Option<World> {
    let mut world = World::new(alloc, &[(key, 1)]).ok()?;
    world
        .run(&[
            Step::Arm { actor: ACTOR, key },
            Step::Draw { actor: ACTOR },
            Step::Peek { actor: ACTOR },
        ])
        .ok()?;
    reserve(&mut world, key, 5)?;
    world
        .run(&[Step::Peek { actor: ACTOR }, Step::Spend { actor: ACTOR }])
        .ok()?;
    use_one(&mut world, key)?;
    use_one(&mut world, key)?;
    use_one(&mut world, key)?;
    Some(world)
}

#[test]
fn numbers_go_on_at_the_mark_after_a_crash(rt: HostRuntime) -> Result<(), Fail> {
    let key = KeyId::new(33_000).ok_or("key")?;
    let mut world = four_numbers(rt.alloc(), key).ok_or("memory")?;
    assert_eq!(rt; world.used(), [(0, 1), (0, 2), (0, 3), (0, 4)].as_slice());

    // The fifth number is at the mark: it is not used before the next block is stored.
    use_one(&mut world, key).ok_or("memory")?;
    assert_eq!(rt; world.used().len(), 4);

    // After a crash the numbers begin at the durable mark.
    world.step(&Step::Crash)?;
    reserve(&mut world, key, 9).ok_or("memory")?;
    use_one(&mut world, key).ok_or("memory")?;
    assert_eq!(rt;
        world.used(),
        [(0, 1), (0, 2), (0, 3), (0, 4), (0, 5)].as_slice()
    );
    let [first] = world.keys() else {
        panic!(rt; "there is one key")
    };
    assert_eq!(rt; first.mark, 9);
    Ok(())
}
