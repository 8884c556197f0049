// Collects documents of one segment, alone and in combinations, and prints the fruits.
#![tactic(auto)]

mod largest;

use collector::{Collector, CollectorFault, Count, Floor, Switch, collect_blocks, collect_each};
use docset::DocId;
use largest::Largest;
use segment::Segment;
use std::{fmt, io};

// Documents with their scores, in no order, one of them twice.
const SCORED: [(DocId, f32); 5] = [(3, 1.0), (0, 0.5), (4, -1.0), (1, 2.0), (0, f32::NAN)];

// The same in another order.
const TURNED: [(DocId, f32); 5] = [(0, f32::NAN), (1, 2.0), (4, -1.0), (3, 1.0), (0, 0.5)];

// The last is not in a segment of five documents.
const PAST: [(DocId, f32); 2] = [(4, 1.0), (5, 1.0)];

const DOCS: [DocId; 3] = [4, 0, 2];

fn show<T: fmt::Debug + Drop>(
    rt: &HostRuntime,
    fruit: Result<T, CollectorFault>,
) -> io::Result<()> {
    match fruit {
        Ok(fruit) => println!(rt; "{fruit:?}"),
        Err(fault) => {
            let number = fault.number();
            println!(rt; "refused {number} ({fault})")
        }
    }
}

// The fruits of one collector.
fn collect<C: Collector>(rt: &HostRuntime, name: &str, collector: &C) -> io::Result<()>
where
    C::Fruit: fmt::Debug,
{
    let segment = Segment::new(&[], 5, None);
    let scoring = collector.requires_scoring();
    println!(rt; "{name}, needs scores: {scoring}")?;
    print!(rt; "  five documents: ")?;
    show(rt, collect_each(collector, 0, &segment, &SCORED))?;
    print!(rt; "  in another order: ")?;
    show(rt, collect_each(collector, 0, &segment, &TURNED))?;
    print!(rt; "  none: ")?;
    show(rt, collect_each(collector, 0, &segment, &[]))?;
    print!(rt; "  one past the last: ")?;
    show(rt, collect_each(collector, 0, &segment, &PAST))?;
    print!(rt; "  a block without scores: ")?;
    show(rt, collect_blocks(collector, 0, &segment, &DOCS))
}

fn alike<C: Collector>(rt: &HostRuntime, name: &str, left: &C, right: &C) -> io::Result<()> {
    let alike = left.alike(right);
    println!(rt; "alike, {name}: {alike}")
}

fn floors(rt: &HostRuntime, low: Floor, high: Floor) -> io::Result<()> {
    collect(rt, "floor of 1", &high)?;
    collect(rt, "count and floor", &(Count, high))?;
    collect(rt, "floor, count and largest", &(high, Count, Largest))?;
    collect(rt, "floor, switched on", &Switch::new(true, high))?;
    collect(rt, "floor, switched off", &Switch::new(false, high))?;
    let nested = (Largest, (Switch::new(false, Count), Switch::new(true, low)));
    collect(rt, "largest beside two switches", &nested)?;
    alike(rt, "floors of 1 and 1", &high, &high)?;
    alike(rt, "floors of 0 and 1", &low, &high)?;
    alike(
        rt,
        "switches off over them",
        &Switch::new(false, low),
        &Switch::new(false, high),
    )?;
    alike(
        rt,
        "switches on over them",
        &Switch::new(true, low),
        &Switch::new(true, high),
    )?;
    alike(rt, "pairs with them", &(Count, low), &(Count, high))
}

fn main(rt: HostRuntime) -> io::Result<()> {
    collect(&rt, "count", &Count)?;
    collect(&rt, "largest", &Largest)?;
    if let (Ok(low), Ok(high)) = (Floor::new(0.0), Floor::new(1.0)) {
        floors(&rt, low, high)?;
    }
    match Floor::new(f32::NAN) {
        Ok(_) => println!(rt; "a floor that is no number: made"),
        Err(fault) => {
            let number = fault.number();
            println!(rt; "a floor that is no number: refused {number} ({fault})")
        }
    }
}
