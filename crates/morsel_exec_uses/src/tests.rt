//! Rows from outside, and a plain program that visits each state of a small machine.
mod visit;

use morsel_exec::laws::{after_cancel, after_start, after_turn, after_wake};
use morsel_exec::machine::{Event, Sched, TaskAt};
use morsel_exec::random_permutation;
use morsel_meaning::TaskNo;
use rand_core::SeedableRng;
use rand_xoshiro::Xoshiro256PlusPlus;
use std::test::Fail;

#[test]
fn one_task_is_spawned_taken_and_finished_once(rt: HostRuntime) -> Result<(), Fail> {
    let mut sched = Sched::new(rt.alloc(), 1, 0)?;
    let task = TaskNo(1);
    assert!(rt; !sched.is_spawned(task));
    assert!(rt; sched.step(Event::Spawn(task)));
    assert!(rt; sched.step(Event::Take(task)));
    assert!(rt; sched.step(Event::Finish(task)));
    assert!(rt; !sched.step(Event::Finish(task)));
    assert!(rt; sched.is_spawned(task));
    assert_eq!(rt; sched.at(task), TaskAt::Finished);
    Ok(())
}

#[test]
fn numbers_beyond_those_given_are_refused(rt: HostRuntime) -> Result<(), Fail> {
    let mut sched = Sched::new(rt.alloc(), 2, 1)?;
    assert!(rt; !sched.step(Event::Spawn(TaskNo(0))));
    assert!(rt; !sched.step(Event::Spawn(TaskNo(3))));
    assert!(rt; !sched.step(Event::Wake(TaskNo(0))));
    assert!(rt; !sched.step(Event::MakeReady(1)));
    assert!(rt; !sched.step(Event::Spend(1)));
    assert!(rt; sched.step(Event::Spawn(TaskNo(2))));
    assert!(rt; sched.step(Event::Take(TaskNo(2))));
    assert!(rt; !sched.step(Event::Register(TaskNo(2), 1)));
    assert!(rt; sched.step(Event::Register(TaskNo(2), 0)));
    Ok(())
}

#[test]
fn words_go_as_their_table_says(rt: HostRuntime) {
    assert_eq!(rt; after_wake(0), (1, true));
    assert_eq!(rt; after_start(1), 2);
    assert_eq!(rt; after_wake(2), (3, false));
    assert_eq!(rt; after_turn(3), (1, true));
    assert_eq!(rt; after_turn(2), (0, false));
    assert_eq!(rt; after_cancel(0), (5, true));
    assert_eq!(rt; after_start(5), 6);
}

#[test]
fn a_permutation_of_two_gives_each_once(rt: HostRuntime) {
    for seed in 0..8 {
        let mut rng = Xoshiro256PlusPlus::seed_from_u64(seed);
        let mut numbers = random_permutation(2, &mut rng);
        let first = numbers.next();
        let second = numbers.next();
        assert!(rt; (first, second) == (Some(0), Some(1)) || (first, second) == (Some(1), Some(0)));
        assert_eq!(rt; numbers.next(), None);
        assert_eq!(rt; random_permutation(0, &mut rng).next(), None);
    }
}

#[test]
fn every_length_gives_each_number_once(rt: HostRuntime) -> Result<(), Fail> {
    for seed in 0..20 {
        let mut rng = Xoshiro256PlusPlus::seed_from_u64(seed);
        for len in 0..301u32 {
            let mut seen = vec![in rt.alloc(); false; len as usize]?;
            for number in random_permutation(len, &mut rng) {
                let place = number as usize;
                assert!(rt;
                    place < seen.len() && !seen[place],
                    "{number} of {len} under {seed}"
                );
                seen[place] = true;
            }
            assert!(rt; seen.iter().all(|was| *was), "{len} under {seed}");
        }
    }
    Ok(())
}
