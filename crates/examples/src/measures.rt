// Values at the edges of the two measures.
use measure::{Clearance, Measure, Metres};

#[test]
fn metres_add_up_to_none(rt: HostRuntime) {
    assert_eq!(rt; Metres::join(700, 900), 1_600);
    assert_eq!(rt; Metres::join(4_294_967_294, 1), Metres::NONE);
    assert_eq!(rt; Metres::join(u64::MAX, 0), Metres::NONE);
    assert!(rt; Metres::better(0, 1));
    assert!(rt; !Metres::better(u64::MAX, Metres::NONE));
}

#[test]
fn clearance_is_the_lowest(rt: HostRuntime) {
    assert_eq!(rt; Clearance::join(420, 380), 380);
    assert_eq!(rt; Clearance::join(65_536, 380), Clearance::NONE);
    assert!(rt; Clearance::better(420, 380));
    assert!(rt; !Clearance::better(65_536, 0));
}
