//! The queue and sorting, by example and beside a plain sorted list.

use super::entries::*;
use super::heap::sorting::sort;
use super::heap::*;
use super::order::Order;
use std::cmp::Reverse;
use std::test::Fail;

/// The phase whose four numbers are the digits of `code`, so that phases are ordered as their codes are.
fn phase(code: u32) -> Phase {
    Phase {
        start: code / 1000 % 10,
        task: code / 100 % 10,
        job: code / 10 % 10,
        length: code % 10,
    }
}

/// The number after `seed` in a sequence that looks random.
fn scramble(seed: u32) -> u32 {
    seed.wrapping_mul(1_664_525).wrapping_add(1_013_904_223)
}

#[test]
fn an_empty_queue_gives_nothing(rt: HostRuntime) {
    let mut memory = [phase(7); 2];
    let mut queue = PriorityQueue::over(&mut memory);
    assert_eq!(rt; queue.take(), None);
    assert_eq!(rt; queue.put(phase(5)), Ok(()));
    assert_eq!(rt; queue.take(), Some(phase(5)));
    assert_eq!(rt; queue.take(), None);
}

#[test]
fn a_full_queue_refuses_and_stays(rt: HostRuntime) {
    let mut memory = [phase(0); 2];
    let mut queue = PriorityQueue::over(&mut memory);
    assert_eq!(rt; queue.put(phase(9)), Ok(()));
    assert_eq!(rt; queue.put(phase(4)), Ok(()));
    assert_eq!(rt; queue.put(phase(1)), Err(Full));
    assert_eq!(rt; queue.take(), Some(phase(4)));
    assert_eq!(rt; queue.take(), Some(phase(9)));
    assert_eq!(rt; queue.take(), None);
    assert_eq!(rt; Full.number(), 27);
}

#[test]
fn no_memory_is_full(rt: HostRuntime) {
    let mut memory: [Phase; 0] = [];
    let mut queue = PriorityQueue::over(&mut memory);
    assert_eq!(rt; queue.put(phase(1)), Err(Full));
    assert_eq!(rt; queue.take(), None);
}

#[test]
fn equal_entries_come_out_as_often_as_they_went_in(rt: HostRuntime) {
    let mut memory = [phase(0); 4];
    let mut queue = PriorityQueue::over(&mut memory);
    for code in [3, 8, 3, 3] {
        assert_eq!(rt; queue.put(phase(code)), Ok(()));
    }
    for code in [3, 3, 3, 8] {
        assert_eq!(rt; queue.take(), Some(phase(code)));
    }
    assert_eq!(rt; queue.take(), None);
}

#[test]
fn the_first_field_that_differs_decides(rt: HostRuntime) {
    let all = [0, 1, 10, 19, 100, 199, 1000, 1999];
    for x in all {
        for y in all {
            assert_eq!(rt; phase(x).at_or_before(&phase(y)), x <= y);
        }
    }
    let soon = Ready {
        deadline: 3,
        task: 9,
        job: 9,
        left: 9,
    };
    let late = Ready {
        deadline: 4,
        task: 1,
        job: 0,
        left: 1,
    };
    let other = Ready { task: 2, ..late };
    assert!(rt; soon.at_or_before(&late) && !late.at_or_before(&soon));
    assert!(rt; late.at_or_before(&other) && !other.at_or_before(&late));
    assert!(rt; late.at_or_before(&late));
}

#[test]
fn a_long_mix_beside_a_sorted_list(rt: HostRuntime) -> Result<(), Fail> {
    let mut memory = [phase(0); 40];
    let mut queue = PriorityQueue::over(&mut memory);
    let mut codes: Vec<u32> = Vec::new(rt.alloc());
    let mut seed = 1;
    for turn in 0..4000 {
        seed = scramble(seed);
        let code = seed / 65_536 % 10_000;
        // long stretches of mostly puts, then of mostly takes
        if (seed / 256 % 4 > 0) == (turn / 200 % 2 == 0) {
            let room = codes.len() < 40;
            assert_eq!(rt; queue.put(phase(code)).is_ok(), room);
            if room {
                codes.push(code)?;
                // the least last, to be popped first
                codes.sort_unstable_by_key(|code| Reverse(*code));
            }
        } else {
            assert_eq!(rt; queue.take(), codes.pop().map(phase));
        }
    }
    Ok(())
}

#[test]
fn sorting_beside_the_codes(rt: HostRuntime) -> Result<(), Fail> {
    let mut phases = [phase(0); 100];
    let mut codes: Vec<u32> = Vec::new(rt.alloc());
    let mut seed = 2;
    for p in phases.iter_mut() {
        seed = scramble(seed);
        let code = seed / 65_536 % 300;
        *p = phase(code);
        codes.push(code)?;
    }
    sort(&mut phases);
    codes.sort()?;
    for (p, code) in phases.iter().zip(codes.iter()) {
        assert_eq!(rt; *p, phase(*code));
    }
    assert_eq!(rt; codes.len(), 100);
    Ok(())
}
