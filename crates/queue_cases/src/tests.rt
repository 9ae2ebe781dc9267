// The calls and their answers, and the entries taken out in order.
use Call::{Clear, Remove, Set};
use queue::{EventQueue, FlatQueue, HeapQueue, TimedKey, drain};
use refusal::Refusal;
use std::process::Abort;
use std::test::Fail;

const BLANK: TimedKey = TimedKey { time: 0, number: 0 };

#[derive(Clone, Copy)]
enum Call {
    Set(usize, u64),
    Remove(usize),
    Clear,
}

const TAKEN: Result<(), Refusal> = Ok(());

const REFUSED: Result<(), Refusal> = Err(Refusal::EventOutOfRange);

// A call, its answer, and the first entry after it.
const CASES: [(Call, Result<(), Refusal>, Option<(u64, usize)>); 14] = [
    (Remove(3), TAKEN, None),
    (Set(5, 70), TAKEN, Some((70, 5))),
    (Set(0, 70), TAKEN, Some((70, 0))),
    (Set(1534, u64::MAX), TAKEN, Some((70, 0))),
    (Set(1535, 1), REFUSED, Some((70, 0))),
    (Set(0, 90), TAKEN, Some((70, 5))),
    (Remove(5), TAKEN, Some((90, 0))),
    (Remove(5), TAKEN, Some((90, 0))),
    (Remove(1535), REFUSED, Some((90, 0))),
    (Remove(0), TAKEN, Some((u64::MAX, 1534))),
    (Set(1534, 0), TAKEN, Some((0, 1534))),
    (Set(7, 0), TAKEN, Some((0, 7))),
    (Clear, TAKEN, None),
    (Set(9, 8), TAKEN, Some((8, 9))),
];

fn make<Q: EventQueue>(queue: &mut Q, call: Call) -> Result<(), Refusal> {
    match call {
        Set(number, time) => queue.set(number, time),
        Remove(number) => queue.remove(number),
        Clear => {
            queue.clear();
            Ok(())
        }
    }
}

fn plays<Q: EventQueue>(rt: &impl Abort, queue: &mut Q) {
    for (call, answer, first) in CASES {
        assert_eq!(rt; make(queue, call), answer);
        assert_eq!(rt; queue.first(), first);
    }
}

fn drains<Q: EventQueue>(rt: &impl Abort, queue: &mut Q) -> Result<(), Fail> {
    queue.set(2, 40)?;
    queue.set(1, 40)?;
    queue.set(8, 1)?;
    let mut out = [(0, 0); 4];
    assert_eq!(rt; drain(queue, &mut out), 4);
    assert_eq!(rt; out, [(1, 8), (8, 9), (40, 1), (40, 2)]);
    assert_eq!(rt; drain(queue, &mut out), 0);
    Ok(())
}

#[test]
fn flat(rt: HostRuntime) -> Result<(), Fail> {
    let mut queue = FlatQueue::open();
    plays(&rt, &mut queue);
    drains(&rt, &mut queue)
}

#[test]
fn heaped(rt: HostRuntime) -> Result<(), Fail> {
    let mut keys = [BLANK; 1535];
    HeapQueue::check_room(&keys)?;
    let mut queue = HeapQueue::open(&mut keys);
    plays(&rt, &mut queue);
    drains(&rt, &mut queue)
}

#[test]
fn on_a_short_list(rt: HostRuntime) -> Result<(), Fail> {
    let mut keys = [BLANK; 2];
    assert_eq!(rt; HeapQueue::check_room(&keys), Err(Refusal::ListTooShort));
    let mut queue = HeapQueue::open(&mut keys);
    plays(&rt, &mut queue);
    drains(&rt, &mut queue)
}

#[test]
fn opened_where_there_is_room(rt: HostRuntime) -> Result<(), Fail> {
    let mut keys = [BLANK; 1535];
    let mut queue = HeapQueue::try_open(&mut keys)?;
    plays(&rt, &mut queue);
    drains(&rt, &mut queue)?;
    let mut few = [BLANK; 1534];
    let refused = HeapQueue::try_open(&mut few).map(|_| ());
    assert_eq!(rt; refused, Err(Refusal::ListTooShort));
    Ok(())
}
