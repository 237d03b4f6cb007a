use crate::{Beat, Head, choose, law_choice};

const HEADS: [Head; 3] = [
    Head {
        time: 100,
        taken: 3,
    },
    Head {
        time: 105,
        taken: 1,
    },
    Head { time: 90, taken: 2 },
];

#[test]
fn the_oldest_head_leaves_under_a_skew(rt: HostRuntime) {
    law_choice();
    assert_eq!(rt; choose(HEADS.as_slice(), 5), Some(2));
    assert_eq!(rt; choose(HEADS.as_slice(), 0), Some(1));
    assert_eq!(rt; choose(&[], 5), None);
}

#[test]
fn a_beat_is_due_behind_its_interval(rt: HostRuntime) {
    let mut beat = Beat::new(10, 100);
    assert!(rt; !beat.due(109) && beat.due(110));
    beat.sent(110);
    assert!(rt; !beat.due(119) && beat.due(120) && !Beat::new(0, 100).due(200));
}
