// Calls at chosen numbers. Expected numbers were worked by hand.
use super::{extend, filled, highest_one, is_odd, join, lowered, lowest_one, raised, slice};

#[test]
fn widths(rt: HostRuntime) {
    assert_eq!(rt; extend(4, 8, true, 0b1000), 0b1111_1000);
    assert_eq!(rt; extend(4, 8, false, 0b1000), 0b1000);
    assert_eq!(rt; extend(8, 4, true, 0b1010_0101), 0b0101);
    assert_eq!(rt; extend(1, 128, true, 1), u128::MAX);
    assert_eq!(rt; slice(3, 2, 0b1101_1011), 0b110);
    assert_eq!(rt; join(3, 0b101, 0b11), 0b11_101);
}

#[test]
fn moves_and_ones(rt: HostRuntime) {
    assert_eq!(rt; raised(4, 1, 0b1001), 0b0010);
    assert_eq!(rt; raised(4, 200, 0b1001), 0);
    assert_eq!(rt; lowered(4, 1, true, 0b0110), 0b1011);
    assert_eq!(rt; lowered(4, 200, true, 0b0110), 0b1111);
    assert_eq!(rt; lowest_one(0b0110), 0b0010);
    assert_eq!(rt; highest_one(0b0110), 0b0100);
    assert_eq!(rt; filled(0b0110), 0b0111);
    assert!(rt; is_odd(0b0111) && !is_odd(0b0110));
}
