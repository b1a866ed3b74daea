use plex_base::NoMemory;
use sf_fabric::replays::replays;
use sf_fabric::{Ask, Op, Round, Tag};
use sf_threads::{Gate, ThreadFabric};
use std::alloc::Global;
use std::sync::atomic::{AtomicBool, Ordering};
use std::test::Fail;
use std::thread::{Threads, yield_now};

/// How often a rank looks for the other one.
const LOOKS: u64 = 100_000_000;

/// Holds ranks 0 and 1 at their first ask until both have arrived.
#[derive(Drop)]
struct Meeting {
    arrived: [AtomicBool; 2],
    missed: AtomicBool,
}

impl Gate for Meeting {
    fn arrive(&self, rank: u32, index: u32) {
        if index > 0 || rank > 1 {
            return;
        }
        self.arrived[rank as usize].store(true, Ordering::SeqCst);
        for _ in 0..LOOKS {
            if self.arrived[1 - rank as usize].load(Ordering::SeqCst) {
                return;
            }
            yield_now();
        }
        self.missed.store(true, Ordering::SeqCst);
    }
}

/// Two ranks ask Sum 1 of one word.
fn two_sums<R: Threads>(rt: &R, alloc: Global, gate: Meeting) -> Result<(Round, bool), NoMemory> {
    let words = Vec::from_array(alloc, [0])?;
    let one = Ask {
        word: 0,
        op: Op::Sum,
        value: 1,
    };
    let first = Vec::from_array(alloc, [one])?;
    let second = Vec::from_array(alloc, [one])?;
    let asks = Vec::from_array(alloc, [first, second])?;
    let mut fabric = ThreadFabric::new(rt, alloc, gate);
    let round = fabric.run_gated(Tag::Number, words, asks)?;
    let missed = fabric.gate().missed.load(Ordering::SeqCst);
    Ok((round, missed))
}

#[test]
fn ranks_run_at_the_same_time(rt: HostRuntime) -> Result<(), Fail> {
    let gate = Meeting {
        arrived: [AtomicBool::new(false), AtomicBool::new(false)],
        missed: AtomicBool::new(false),
    };
    let (round, missed) = two_sums(&rt, rt.alloc(), gate)?;
    assert!(rt; !missed);
    assert!(rt; replays(&round));
    assert_eq!(rt; round.after(), [2].as_slice());
    Ok(())
}
